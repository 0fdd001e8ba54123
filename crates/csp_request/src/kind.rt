//! Kinds of descriptions, and of inline code and style.
ghost use Rattle.std.specs.Prelude.{◌≡◌};
ghost use Rattle.csp_request.specs.Kinds as spec;

use csp_model::InlineKind;

/// What a description asks for: its member `kind`.
#[derive(Clone, Copy, Debug, PartialEq, Eq)]
pub enum DescriptionKind {
    Fetch,
    Inline,
    Eval,
    Wasm,
    Base,
    Form,
    Ancestors,
    Capability,
    WorkerStart,
}

impl DescriptionKind {
    /// The kind as it is written, as `worker-start`.
    pub fn as_str(self) -> &'static str
        ensures { result.now ≡ spec.kind_text self }
    {
        match self {
            DescriptionKind::Fetch => "fetch",
            DescriptionKind::Inline => "inline",
            DescriptionKind::Eval => "eval",
            DescriptionKind::Wasm => "wasm",
            DescriptionKind::Base => "base",
            DescriptionKind::Form => "form",
            DescriptionKind::Ancestors => "ancestors",
            DescriptionKind::Capability => "capability",
            DescriptionKind::WorkerStart => "worker-start",
        }
    }

    // The kind that is so written.
    pub(crate) fn from_name(name: &str) -> Option<DescriptionKind>
        ensures { result ≡ spec.kind_named name.now }
    {
        match name {
            "fetch" => Some(DescriptionKind::Fetch),
            "inline" => Some(DescriptionKind::Inline),
            "eval" => Some(DescriptionKind::Eval),
            "wasm" => Some(DescriptionKind::Wasm),
            "base" => Some(DescriptionKind::Base),
            "form" => Some(DescriptionKind::Form),
            "ancestors" => Some(DescriptionKind::Ancestors),
            "capability" => Some(DescriptionKind::Capability),
            "worker-start" => Some(DescriptionKind::WorkerStart),
            _ => None,
        }
    }
}

/// What inline code or style it is, as the member `type` is written: `script`, `script-attribute`, `style`,
/// `style-attribute` or `navigation`.
pub fn inline_text(kind: InlineKind) -> &'static str
    ensures { result.now ≡ spec.inline_text kind }
{
    match kind {
        InlineKind::Script => "script",
        InlineKind::ScriptAttribute => "script-attribute",
        InlineKind::Style => "style",
        InlineKind::StyleAttribute => "style-attribute",
        InlineKind::Navigation => "navigation",
    }
}

// The inline code or style that is so written.
pub(crate) fn inline_named(name: &str) -> Option<InlineKind>
    ensures { result ≡ spec.inline_named name.now }
{
    match name {
        "script" => Some(InlineKind::Script),
        "script-attribute" => Some(InlineKind::ScriptAttribute),
        "style" => Some(InlineKind::Style),
        "style-attribute" => Some(InlineKind::StyleAttribute),
        "navigation" => Some(InlineKind::Navigation),
        _ => None,
    }
}
