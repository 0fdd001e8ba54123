//! The members of descriptions.
ghost use Rattle.std.specs.Prelude.{◌≡◌};
ghost use Rattle.csp_request.specs.Members as spec;

/// A member of a description that can be missing or misused.
#[derive(Clone, Copy, Debug, PartialEq, Eq)]
pub enum Field {
    /// The description itself, which isn't an object.
    Object,
    Kind,
    Destination,
    Url,
    Urls,
    Redirects,
    Response,
    Nonce,
    Integrity,
    ParserInserted,
    /// The member `type` of inline code or style.
    InlineType,
    Source,
    Digests,
    Element,
    Ancestors,
    Page,
    Name,
}

impl Field {
    /// The member's name, as `parser-inserted`; of `Object` it is `object`.
    pub fn as_str(self) -> &'static str
        ensures { result.now ≡ spec.field_text self }
    {
        match self {
            Field::Object => "object",
            Field::Kind => "kind",
            Field::Destination => "destination",
            Field::Url => "url",
            Field::Urls => "urls",
            Field::Redirects => "redirects",
            Field::Response => "response",
            Field::Nonce => "nonce",
            Field::Integrity => "integrity",
            Field::ParserInserted => "parser-inserted",
            Field::InlineType => "type",
            Field::Source => "source",
            Field::Digests => "digests",
            Field::Element => "element",
            Field::Ancestors => "ancestors",
            Field::Page => "page",
            Field::Name => "name",
        }
    }
}
