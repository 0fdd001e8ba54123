//! Elements and their nonces (Content Security Policy Level 3, section 6.7.3.1).
ghost use Rattle.std.specs.Prelude.{◌≡◌, ◌↔◌, ◌||◌, IsTrue, codes, option_copied};
ghost use Rattle.std.specs.List.{list_any};
ghost use Rattle.csp_model.specs.Ascii.{lower, is_nonempty};
ghost use Rattle.csp_model.specs.Inline.{IsNonceable, IsElementNonce, nonce_attribute};
ghost use Rattle.csp_model.specs.DecideNonces as spec;

use crate::list::List;
use crate::text::Text;

/// An element of a page, as far as its nonce needs it.
#[derive(Debug, PartialEq, Eq, Drop)]
pub struct Element {
    /// Its name, as `script`. It is compared byte by byte.
    pub tag: Text,
    /// The name and the value of each attribute, in order. Names are compared byte by byte.
    pub attributes: List<(Text, Text)>,
    /// Whether the parser saw an attribute of the element twice.
    pub duplicate: bool,
}

/// Whether an element's nonce counts: it has an attribute `nonce`, no attribute of it stood twice, and, for
/// the tag `script`, no attribute has `<script` or `<style` in its name or value, in letters of either case.
pub fn nonceable(element: &Element) -> bool
    ensures value { result ≡ spec.is_nonceable element.now.tag element.now.attributes element.now.duplicate }
    ensures nonceable { IsTrue result
        ↔ IsNonceable element.now.tag element.now.attributes element.now.duplicate }
{
    nonce_attribute(&element.attributes).is_some()
        && !element.duplicate
        && (element.tag.as_str() != "script" || !has_suspect(&element.attributes))
}

/// The nonce of an element: the value of its first attribute `nonce` where the element is nonceable, else the
/// empty text.
pub fn element_nonce(element: &Element) -> &str
    ensures value { result.now
        ≡ spec.element_nonce element.now.tag element.now.attributes element.now.duplicate }
    ensures nonce { IsElementNonce element.now.tag element.now.attributes element.now.duplicate result.now }
{
    if nonceable(element) {
        match nonce_attribute(&element.attributes) {
            Some(nonce) => nonce.as_str(),
            None => "",
        }
    } else {
        ""
    }
}

// The value of the first attribute `nonce`.
fn nonce_attribute(attributes: &List<(Text, Text)>) -> Option<&Text>
    ensures { option_copied result ≡ nonce_attribute attributes.now }
{
    attributes
        .as_slice()
        .iter()
        .find(|attribute| attribute.0.as_str() == "nonce")
        .map(|attribute| &attribute.1)
}

fn has_suspect(attributes: &List<(Text, Text)>) -> bool
    ensures { result ≡ list_any spec.is_suspect attributes.now }
{
    attributes
        .as_slice()
        .iter()
        .any(|attribute| is_suspect(attribute))
}

// Whether an attribute's name or value begins another script or style.
fn is_suspect(attribute: &(Text, Text)) -> bool
    ensures { result ≡ spec.is_suspect attribute.now }
{
    begins_element(attribute.0.as_str()) || begins_element(attribute.1.as_str())
}

fn begins_element(text: &str) -> bool
    ensures { result ≡ spec.mentions (codes "<script") text.now || spec.mentions (codes "<style") text.now }
{
    mentions(text.as_bytes(), b"<script") || mentions(text.as_bytes(), b"<style")
}

// Whether a word stands in the text, in letters of either case.
fn mentions(text: &[u8], word: &[u8]) -> bool
    requires { IsTrue (is_nonempty word.now) }
    ensures { result ≡ spec.has_word (lower word.now) (lower text.now) }
{
    for window in text.windows(word.len()) {
        if window.eq_ignore_ascii_case(word) {
            return true;
        }
    }
    false
}
