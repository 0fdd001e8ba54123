//! Members of descriptions, each of its form.
ghost use Rattle.std.specs.Prelude.{◌≡◌, false, [], map, option_map, option_copied};
ghost use Rattle.csp_json.specs.View.{view};
ghost use Rattle.csp_request.specs.Json as json;
ghost use Rattle.csp_request.specs.Members as spec;

use crate::error::DescriptionError;
use crate::field::Field;
use csp_json::Value;

// What has to be there.
pub(crate) fn require<T: Drop>(field: Field, found: Option<T>) -> Result<T, DescriptionError>
    ensures { result ≡ spec.needed field found }
{
    match found {
        None => Err(DescriptionError::Misused { field }),
        Some(value) => Ok(value),
    }
}

// The member of a name; one that is null counts as absent.
pub(crate) fn present<'v, 'a>(value: &'v Value<'a>, name: &str) -> Option<&'v Value<'a>>
    ensures { option_map (λ v. view v.now) result ≡ json.present name.now (view value.now) }
{
    let member = value.get(name)?;
    if member.is_null() { None } else { Some(member) }
}

// What has to hold.
pub(crate) fn demand(field: Field, holds: bool) -> Result<(), DescriptionError>
    ensures { result ≡ spec.demand field holds }
{
    if holds {
        Ok(())
    } else {
        Err(DescriptionError::Misused { field })
    }
}

// The member is missing, or null.
pub(crate) fn is_absent(value: &Value<'_>, field: Field) -> bool
    ensures { result ≡ spec.is_absent field (view value.now) }
{
    present(value, field.as_str()).is_none()
}

// A text.
pub(crate) fn text<'v>(field: Field, value: &'v Value<'_>) -> Result<&'v str, DescriptionError>
    ensures { spec.found_map (λ t. t.now) result ≡ spec.text field (view value.now) }
{
    require(field, value.as_str())
}

// A truth value.
fn flag(field: Field, value: &Value<'_>) -> Result<bool, DescriptionError>
    ensures { result ≡ spec.flag field (view value.now) }
{
    require(field, value.as_bool())
}

// A whole number up to the greatest that is allowed.
fn whole_number(greatest: u32, value: &Value<'_>) -> Option<u32>
    ensures { result ≡ json.whole_number greatest (view value.now) }
{
    let number = value.as_u64()?;
    if number <= greatest as u64 {
        Some(number as u32)
    } else {
        None
    }
}

fn number(greatest: u32, field: Field, value: &Value<'_>) -> Result<u32, DescriptionError>
    ensures { result ≡ spec.number greatest field (view value.now) }
{
    require(field, whole_number(greatest, value))
}

// The items of an array.
pub(crate) fn array<'v, 'a>(
    field: Field,
    value: &'v Value<'a>,
) -> Result<&'v [Value<'a>], DescriptionError>
    ensures { spec.found_map (λ items. map view items.now) result ≡ spec.array field (view value.now) }
{
    require(field, value.as_array())
}

// A part that holds a text, or none where it is absent.
pub(crate) fn text_part<'v>(
    name: &str,
    field: Field,
    value: &'v Value<'_>,
) -> Result<Option<&'v str>, DescriptionError>
    ensures { spec.found_map option_copied result ≡ spec.part name.now spec.text field (view value.now) }
{
    match present(value, name) {
        None => Ok(None),
        Some(found) => Ok(Some(text(field, found)?)),
    }
}

// A part that has to hold a text.
pub(crate) fn needed_text<'v>(
    name: &str,
    field: Field,
    value: &'v Value<'_>,
) -> Result<&'v str, DescriptionError>
    ensures { spec.found_map (λ t. t.now) result
        ≡ spec.needed_part name.now spec.text field (view value.now) }
{
    require(field, text_part(name, field, value)?)
}

// A part that holds a whole number up to the greatest that is allowed, or none where it is absent.
pub(crate) fn number_part(
    name: &str,
    greatest: u32,
    field: Field,
    value: &Value<'_>,
) -> Result<Option<u32>, DescriptionError>
    ensures { result ≡ spec.part name.now (spec.number greatest) field (view value.now) }
{
    match present(value, name) {
        None => Ok(None),
        Some(found) => Ok(Some(number(greatest, field, found)?)),
    }
}

// A part that holds a truth value, which is false where it is absent.
pub(crate) fn flag_part(
    name: &str,
    field: Field,
    value: &Value<'_>,
) -> Result<bool, DescriptionError>
    ensures { result ≡ spec.part_or_else false name.now spec.flag field (view value.now) }
{
    match present(value, name) {
        None => Ok(false),
        Some(found) => flag(field, found),
    }
}

// A part that has to hold an array.
pub(crate) fn needed_array<'v, 'a>(
    name: &str,
    field: Field,
    value: &'v Value<'a>,
) -> Result<&'v [Value<'a>], DescriptionError>
    ensures { spec.found_map (λ items. map view items.now) result
        ≡ spec.needed_part name.now spec.array field (view value.now) }
{
    array(field, require(field, present(value, name))?)
}

// A member that holds a text, which is empty where it is absent.
pub(crate) fn text_or_empty<'v>(
    field: Field,
    value: &'v Value<'_>,
) -> Result<&'v str, DescriptionError>
    ensures { spec.found_map (λ t. t.now) result ≡ spec.or_else [] spec.text field (view value.now) }
{
    Ok(text_part(field.as_str(), field, value)?.unwrap_or(""))
}

// A member that has to hold a text.
pub(crate) fn required_text<'v>(
    field: Field,
    value: &'v Value<'_>,
) -> Result<&'v str, DescriptionError>
    ensures { spec.found_map (λ t. t.now) result ≡ spec.required spec.text field (view value.now) }
{
    needed_text(field.as_str(), field, value)
}
