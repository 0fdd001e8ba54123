//! Elements and nonces in descriptions.
ghost use Rattle.std.specs.Prelude.{◌≡◌, map};
ghost use Rattle.csp_json.specs.View.{view};
ghost use Rattle.csp_model.specs.Answers.{Gives};
ghost use Rattle.csp_request.specs.Members.{each, optional};
ghost use Rattle.csp_request.specs.Described as spec;

use crate::error::DescriptionError;
use crate::field::Field;
use crate::member::{
    array, demand, flag_part, is_absent, needed_array, needed_text, present, text, text_or_empty,
};
use csp_json::Value;
use csp_model::{Element, List, Text, element_nonce};
use std::alloc::Global;

// An attribute: an array of its name and its value.
fn attribute(
    alloc: Global,
    field: Field,
    value: &Value<'_>,
) -> Result<(Text, Text), DescriptionError>
    ensures { Gives DescriptionError.Memory result (spec.attribute field (view value.now)) }
{
    match array(field, value)? {
        [name, content] => {
            let name = text(field, name)?;
            let content = text(field, content)?;
            Ok((Text::new(alloc, name)?, Text::new(alloc, content)?))
        }
        _ => Err(DescriptionError::Misused { field }),
    }
}

fn attributes(
    alloc: Global,
    field: Field,
    items: &[Value<'_>],
) -> Result<List<(Text, Text)>, DescriptionError>
    ensures { Gives DescriptionError.Memory result (each spec.attribute field (map view items.now)) }
{
    let mut found = List::new(alloc);
    for item in items {
        found.push(attribute(alloc, field, item)?)?;
    }
    Ok(found)
}

fn element(alloc: Global, field: Field, value: &Value<'_>) -> Result<Element, DescriptionError>
    ensures { Gives DescriptionError.Memory result (spec.element field (view value.now)) }
{
    let tag = needed_text("tag", field, value)?;
    let items = needed_array("attributes", field, value)?;
    let attributes = attributes(alloc, field, items)?;
    let duplicate = flag_part("duplicate-attribute", field, value)?;
    Ok(Element {
        tag: Text::new(alloc, tag)?,
        attributes,
        duplicate,
    })
}

fn optional_element(alloc: Global, value: &Value<'_>) -> Result<Option<Element>, DescriptionError>
    ensures { Gives DescriptionError.Memory result (optional spec.element Field.Element (view value.now)) }
{
    match present(value, "element") {
        None => Ok(None),
        Some(found) => Ok(Some(element(alloc, Field::Element, found)?)),
    }
}

// The nonce of an element, or else one that is given.
pub(crate) fn nonce_of(alloc: Global, value: &Value<'_>) -> Result<Text, DescriptionError>
    ensures { Gives DescriptionError.Memory result (spec.nonce_of (view value.now)) }
{
    match optional_element(alloc, value)? {
        Some(found) => {
            demand(Field::Nonce, is_absent(value, Field::Nonce))?;
            Ok(Text::new(alloc, element_nonce(&found))?)
        }
        None => Ok(Text::new(alloc, text_or_empty(Field::Nonce, value)?)?),
    }
}
