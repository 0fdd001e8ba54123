//! Destinations that stand for groups.
ghost use Rattle.std.specs.Prelude.{◌≡◌};
ghost use Rattle.csp_request.specs.Printed as spec;

use csp_model::{Destination, Group};

// The destination that stands for a group in what is printed.
pub(crate) fn destination_for(group: Group) -> Destination
    ensures { result ≡ spec.destination_for group }
{
    match group {
        Group::Connect => Destination::Empty,
        Group::Font => Destination::Font,
        Group::Frame => Destination::Frame,
        Group::Img => Destination::Image,
        Group::Manifest => Destination::Manifest,
        Group::Media => Destination::Video,
        Group::Object => Destination::Object,
        Group::StyleElem => Destination::Style,
        Group::ScriptElem => Destination::Script,
        Group::Worker => Destination::Worker,
    }
}
