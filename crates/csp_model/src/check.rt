//! What a policy is asked: one check of one request.
ghost use Rattle.std.specs.Prelude.{◌≡◌, option_copied};
ghost use Rattle.csp_model.specs.Fetch.{fetch_rule};
ghost use Rattle.csp_model.specs.Names.{group_directive, inline_directive, capability_text, capability_named};
ghost use Rattle.csp_model.specs.Parts as spec;

use crate::list::List;
use crate::name::Name;
use crate::source::{Algorithm, Hash};
use crate::text::Text;
use crate::url::Url;

/// The fetches that one directive governs.
#[derive(Clone, Copy, Debug, PartialEq, Eq)]
pub enum Group {
    Connect,
    Font,
    Frame,
    Img,
    Manifest,
    Media,
    Object,
    StyleElem,
    ScriptElem,
    Worker,
}

impl Group {
    /// The effective directive of the group's fetches (Content Security Policy Level 3, section 6.8.1).
    pub fn directive(self) -> Name
        ensures { result ≡ group_directive self }
    {
        match self {
            Group::Connect => Name::ConnectSrc,
            Group::Font => Name::FontSrc,
            Group::Frame => Name::FrameSrc,
            Group::Img => Name::ImgSrc,
            Group::Manifest => Name::ManifestSrc,
            Group::Media => Name::MediaSrc,
            Group::Object => Name::ObjectSrc,
            Group::StyleElem => Name::StyleSrcElem,
            Group::ScriptElem => Name::ScriptSrcElem,
            Group::Worker => Name::WorkerSrc,
        }
    }

    /// How a directive of this name decides on the group's fetches, where it governs them. A worker is
    /// decided on as a script where `script-src` governs it (Content Security Policy Level 3, sections 6.1
    /// and 6.7.1).
    pub fn rule(self, governing: Name) -> FetchRule
        ensures { result ≡ fetch_rule self governing }
    {
        match self {
            Group::ScriptElem => FetchRule::Script,
            Group::Worker if governing == Name::ScriptSrc => FetchRule::Script,
            Group::StyleElem => FetchRule::Style,
            _ => FetchRule::List,
        }
    }
}

/// How a directive decides on a fetch that it governs.
#[derive(Clone, Copy, Debug, PartialEq, Eq)]
pub enum FetchRule {
    /// By nonce, integrity, `'strict-dynamic'` and its list.
    Script,
    /// By nonce and its list.
    Style,
    /// By its list alone.
    List,
}

/// What inline code or style it is.
#[derive(Clone, Copy, Debug, PartialEq, Eq)]
pub enum InlineKind {
    /// The text of a script element.
    Script,
    /// An event handler in an attribute.
    ScriptAttribute,
    /// The text of a style element.
    Style,
    /// The text of a style attribute.
    StyleAttribute,
    /// A navigation to a `javascript:` URL.
    Navigation,
}

impl InlineKind {
    /// All kinds, in the order in which they are declared.
    pub const ALL: [InlineKind; 5] = [
        InlineKind::Script,
        InlineKind::ScriptAttribute,
        InlineKind::Style,
        InlineKind::StyleAttribute,
        InlineKind::Navigation,
    ];

    /// The effective directive of the kind (Content Security Policy Level 3, section 6.8.2).
    pub fn directive(self) -> Name
        ensures { result ≡ inline_directive self }
    {
        match self {
            InlineKind::Script | InlineKind::Navigation => Name::ScriptSrcElem,
            InlineKind::ScriptAttribute => Name::ScriptSrcAttr,
            InlineKind::Style => Name::StyleSrcElem,
            InlineKind::StyleAttribute => Name::StyleSrcAttr,
        }
    }
}

/// What a sandbox can leave to a document (HTML Standard, section 7.1.5).
#[derive(Clone, Copy, Debug, PartialEq, Eq)]
pub enum Capability {
    Forms,
    Scripts,
    SameOrigin,
    Popups,
    PopupsToEscapeSandbox,
    TopNavigation,
    TopNavigationByUserActivation,
    Modals,
    PointerLock,
    OrientationLock,
    Presentation,
    Downloads,
}

impl Capability {
    /// All capabilities, in the order in which they are declared.
    pub const ALL: [Capability; 12] = [
        Capability::Forms,
        Capability::Scripts,
        Capability::SameOrigin,
        Capability::Popups,
        Capability::PopupsToEscapeSandbox,
        Capability::TopNavigation,
        Capability::TopNavigationByUserActivation,
        Capability::Modals,
        Capability::PointerLock,
        Capability::OrientationLock,
        Capability::Presentation,
        Capability::Downloads,
    ];

    /// The capability as it is written, as `same-origin`. Its sandbox token has `allow-` before it.
    pub fn as_str(self) -> &'static str
        ensures { result.now ≡ capability_text self }
    {
        match self {
            Capability::Forms => "forms",
            Capability::Scripts => "scripts",
            Capability::SameOrigin => "same-origin",
            Capability::Popups => "popups",
            Capability::PopupsToEscapeSandbox => "popups-to-escape-sandbox",
            Capability::TopNavigation => "top-navigation",
            Capability::TopNavigationByUserActivation => "top-navigation-by-user-activation",
            Capability::Modals => "modals",
            Capability::PointerLock => "pointer-lock",
            Capability::OrientationLock => "orientation-lock",
            Capability::Presentation => "presentation",
            Capability::Downloads => "downloads",
        }
    }

    /// The capability that is so written, in lower case and without `allow-`. None where none is.
    pub fn from_name(name: &str) -> Option<Capability>
        ensures { result ≡ capability_named name.now }
    {
        Capability::ALL
            .iter()
            .copied()
            .find(|capability| name == capability.as_str())
    }
}

/// The digests of a source text, or of nothing known.
#[derive(Clone, Copy, Debug, PartialEq, Eq)]
pub struct Digests {
    pub sha256: [u8; 32],
    pub sha384: [u8; 48],
    pub sha512: [u8; 64],
}

/// A digest of one algorithm.
#[derive(Clone, Copy, Debug, PartialEq, Eq)]
pub enum Digest {
    Sha256([u8; 32]),
    Sha384([u8; 48]),
    Sha512([u8; 64]),
}

/// One check. A request is a list of them, as a redirect chain has one for each hop.
#[derive(Debug, PartialEq, Eq, Drop)]
pub enum Check {
    /// A fetch. Path matching is left out where `redirects` isn't 0.
    Fetch {
        group: Group,
        url: Url,
        redirects: u32,
        nonce: Text,
        integrity: List<Hash>,
        parser_inserted: bool,
    },
    /// Inline code or style, known by its element's nonce and its text's digests.
    Inline {
        kind: InlineKind,
        nonce: Text,
        digests: Digests,
    },
    /// Compilation of a string as script.
    Eval,
    /// Compilation of WebAssembly.
    Wasm,
    /// A base URL.
    Base {
        url: Url,
    },
    /// A form submission, or a hop of one.
    Form {
        url: Url,
        redirects: u32,
    },
    /// An ancestor's origin, as a URL with path `/`.
    Ancestor {
        url: Url,
    },
    /// An ancestor with an opaque origin.
    OpaqueAncestor,
    /// Something that a sandbox could take from a document.
    Capability {
        capability: Capability,
    },
    /// The start of a worker, which a sandbox could refuse.
    WorkerStart,
}

impl Check {
    /// The URL that the check is about. None where its kind has none.
    pub fn url(&self) -> Option<&Url>
        ensures { option_copied result ≡ spec.checked_url self.now }
    {
        match self {
            Check::Fetch { url, .. }
            | Check::Base { url }
            | Check::Form { url, .. }
            | Check::Ancestor { url } => Some(url),
            _ => None,
        }
    }

    /// The nonce of a fetch, or of inline code or style. None for the other kinds.
    pub fn nonce(&self) -> Option<&Text>
        ensures { option_copied result ≡ spec.checked_nonce self.now }
    {
        match self {
            Check::Fetch { nonce, .. } | Check::Inline { nonce, .. } => Some(nonce),
            _ => None,
        }
    }

    /// The integrity metadata of a fetch. None for the other kinds.
    pub fn integrity(&self) -> Option<&List<Hash>>
        ensures { option_copied result ≡ spec.checked_integrity self.now }
    {
        match self {
            Check::Fetch { integrity, .. } => Some(integrity),
            _ => None,
        }
    }

    /// The digests of inline code or style. None for the other kinds.
    pub fn digests(&self) -> Option<&Digests>
        ensures { option_copied result ≡ spec.checked_digests self.now }
    {
        match self {
            Check::Inline { digests, .. } => Some(digests),
            _ => None,
        }
    }

    /// Whether the check has a part: of a URL with a host its host, port and path, of any other URL its
    /// scheme.
    pub fn has(&self, part: CheckPart) -> bool
        ensures { result ≡ spec.has_part self.now part }
    {
        match part {
            CheckPart::Host | CheckPart::Port | CheckPart::Path => {
                matches!(self.url(), Some(Url::Hosted { .. }))
            }
            CheckPart::PlainScheme => matches!(self.url(), Some(Url::Plain { .. })),
            CheckPart::Nonce => self.nonce().is_some(),
            CheckPart::Integrity => self.integrity().is_some(),
            CheckPart::Digest(_) => self.digests().is_some(),
        }
    }
}

/// A part of a check, as far as a policy looks at it.
#[derive(Clone, Copy, Debug, PartialEq, Eq)]
pub enum CheckPart {
    /// The host of a URL that has one.
    Host,
    /// Its port, or its scheme's default.
    Port,
    /// The pieces of its path.
    Path,
    /// The scheme of a URL without a host.
    PlainScheme,
    Nonce,
    Integrity,
    /// The digest of one algorithm.
    Digest(Algorithm),
}
