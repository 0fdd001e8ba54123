//! Destinations of requests, and the groups of fetches that one directive governs.
ghost use Rattle.std.specs.Prelude.{◌≡◌};
ghost use Rattle.csp_model.specs.Destinations as spec;

use crate::check::Group;

/// What a request is for (Fetch Standard, section 2.2.5).
#[derive(Clone, Copy, Debug, PartialEq, Eq)]
pub enum Destination {
    /// The empty text, as of `fetch()`, `XMLHttpRequest`, beacons and pings.
    Empty,
    Manifest,
    Object,
    Embed,
    Frame,
    Iframe,
    Audio,
    Track,
    Video,
    Font,
    Image,
    Style,
    Script,
    Audioworklet,
    Paintworklet,
    Worker,
    Serviceworker,
    Sharedworker,
    /// A report, which no directive governs.
    Report,
}

impl Destination {
    /// The destination as it is written. `Empty` is the empty text.
    pub fn as_str(self) -> &'static str
        ensures { result.now ≡ spec.destination_text self }
    {
        match self {
            Destination::Empty => "",
            Destination::Manifest => "manifest",
            Destination::Object => "object",
            Destination::Embed => "embed",
            Destination::Frame => "frame",
            Destination::Iframe => "iframe",
            Destination::Audio => "audio",
            Destination::Track => "track",
            Destination::Video => "video",
            Destination::Font => "font",
            Destination::Image => "image",
            Destination::Style => "style",
            Destination::Script => "script",
            Destination::Audioworklet => "audioworklet",
            Destination::Paintworklet => "paintworklet",
            Destination::Worker => "worker",
            Destination::Serviceworker => "serviceworker",
            Destination::Sharedworker => "sharedworker",
            Destination::Report => "report",
        }
    }

    /// The destination that is so written, which is compared byte by byte. None where none is.
    pub fn from_name(name: &str) -> Option<Destination>
        ensures { result ≡ spec.destination_named name.now }
    {
        match name {
            "" => Some(Destination::Empty),
            "manifest" => Some(Destination::Manifest),
            "object" => Some(Destination::Object),
            "embed" => Some(Destination::Embed),
            "frame" => Some(Destination::Frame),
            "iframe" => Some(Destination::Iframe),
            "audio" => Some(Destination::Audio),
            "track" => Some(Destination::Track),
            "video" => Some(Destination::Video),
            "font" => Some(Destination::Font),
            "image" => Some(Destination::Image),
            "style" => Some(Destination::Style),
            "script" => Some(Destination::Script),
            "audioworklet" => Some(Destination::Audioworklet),
            "paintworklet" => Some(Destination::Paintworklet),
            "worker" => Some(Destination::Worker),
            "serviceworker" => Some(Destination::Serviceworker),
            "sharedworker" => Some(Destination::Sharedworker),
            "report" => Some(Destination::Report),
            _ => None,
        }
    }
}

/// The group of the fetches of a destination, which says the effective directive (Content Security Policy
/// Level 3, section 6.8.1). None comes exactly for `Report`: no directive governs a report, so there is
/// nothing to check.
pub fn effective(destination: Destination) -> Option<Group>
    ensures { result ≡ spec.group_of destination }
{
    match destination {
        Destination::Empty => Some(Group::Connect),
        Destination::Manifest => Some(Group::Manifest),
        Destination::Object | Destination::Embed => Some(Group::Object),
        Destination::Frame | Destination::Iframe => Some(Group::Frame),
        Destination::Audio | Destination::Track | Destination::Video => Some(Group::Media),
        Destination::Font => Some(Group::Font),
        Destination::Image => Some(Group::Img),
        Destination::Style => Some(Group::StyleElem),
        Destination::Script | Destination::Audioworklet | Destination::Paintworklet => {
            Some(Group::ScriptElem)
        }
        Destination::Worker | Destination::Serviceworker | Destination::Sharedworker => {
            Some(Group::Worker)
        }
        Destination::Report => None,
    }
}
