//! Tests of the shapes of csp_facts.
use crate::values::fetch;
use csp_facts::{Shape, shape_at, shape_number, shape_of};
use csp_model::{Capability, Group, InlineKind, Scheme};
use std::test::Fail;

const OF_FETCHES: [(Group, &str, u32, bool, u8); 6] = [
    (Group::Img, "https://a.example/", 0, false, 38),
    (Group::Img, "https://a.example/", 3, false, 39),
    (Group::Img, "https://a.example/", 0, true, 38),
    (Group::Img, "data:,", 0, false, 46),
    (Group::ScriptElem, "https://a.example/", 0, false, 98),
    (Group::ScriptElem, "https://a.example/", 0, true, 110),
];

#[test]
fn shapes_of_fetches(rt: HostRuntime) -> Result<(), Fail> {
    for &(group, url, redirects, parser_inserted, number) in &OF_FETCHES {
        let check = fetch(rt.alloc(), group, url, redirects, parser_inserted)?;
        let shape = shape_of(&check);
        drop(check);
        assert_eq!(rt; shape_number(shape), number);
    }
    Ok(())
}

// Fetches over http that no redirect led to.
const FIRST_FETCHES: [(u8, Group, bool); 12] = [
    (0, Group::Connect, false),
    (12, Group::Font, false),
    (24, Group::Frame, false),
    (36, Group::Img, false),
    (48, Group::Manifest, false),
    (60, Group::Media, false),
    (72, Group::Object, false),
    (84, Group::StyleElem, false),
    (96, Group::ScriptElem, false),
    (108, Group::ScriptElem, true),
    (120, Group::Worker, false),
    (132, Group::Worker, true),
];

const HTTP: Option<Scheme> = Some(Scheme::Http);

const FIRST_OF_OTHER_KINDS: [(u8, Shape); 12] = [
    (
        144,
        Shape::Form {
            scheme: HTTP,
            redirected: false,
        },
    ),
    (156, Shape::Base { scheme: HTTP }),
    (162, Shape::Ancestor { scheme: HTTP }),
    (168, Shape::OpaqueAncestor),
    (
        169,
        Shape::Inline {
            kind: InlineKind::Script,
        },
    ),
    (
        171,
        Shape::Inline {
            kind: InlineKind::Style,
        },
    ),
    (
        173,
        Shape::Inline {
            kind: InlineKind::Navigation,
        },
    ),
    (174, Shape::Eval),
    (175, Shape::Wasm),
    (
        176,
        Shape::Capability {
            capability: Capability::Forms,
        },
    ),
    (
        187,
        Shape::Capability {
            capability: Capability::Downloads,
        },
    ),
    (188, Shape::WorkerStart),
];

// The first shape of each kind.
#[test]
fn shapes_by_number(rt: HostRuntime) {
    for &(number, group, parser_inserted) in &FIRST_FETCHES {
        let shape = Shape::Fetch {
            group,
            scheme: HTTP,
            redirected: false,
            parser_inserted,
        };
        assert_eq!(rt; shape_at(number), Some(shape), "{number}");
    }
    for &(number, shape) in &FIRST_OF_OTHER_KINDS {
        assert_eq!(rt; shape_at(number), Some(shape), "{number}");
    }
    assert_eq!(rt; shape_at(189), None);
}
