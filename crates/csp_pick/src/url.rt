//! URLs.
ghost use Rattle.std.specs.Prelude.{◌≡◌, ◌≢◌, [], ◌∷◌, IfOk, IsTrue, false, true};
ghost use Rattle.std.specs.List.{list_all};
ghost use Rattle.csp_model.specs.Validity.{IsOriginUrl, IsValidUrl, is_piece};
ghost use Rattle.csp_model.specs.declared.check.CheckPart.TheVariants as part;
ghost use Rattle.csp_pick.specs.Parts.{MeetPart, path_holds};
ghost use Rattle.csp_pick.specs.Picks.{LeavesPorts};
ghost use Rattle.csp_pick.specs.Urls.{MeetUrl};
ghost use Rattle.csp_facts.specs.Shapes.{hosted_scheme};

use crate::host::pick_host;
use crate::path::pick_path;
use crate::port::pick_port;
use crate::scheme::pick_scheme;
use csp_cell::Cell;
use csp_model::{Memory, Path, Scheme, Url};
use std::alloc::Global;

// A valid URL of the scheme, of which each literal on its parts is true. Where paths aren't compared, its
// path is `/`, and literals on paths count for nothing.
pub(crate) fn pick_url(
    alloc: Global,
    cell: &Cell,
    scheme: Option<Scheme>,
    compares_paths: bool,
) -> Result<Url, Memory>
    requires { LeavesPorts cell.now.literals }
    ensures valid { IfOk result IsValidUrl }
    ensures origin { IfOk result (λ there. compares_paths ≡ false → IsOriginUrl there) }
    ensures scheme { IfOk result (λ there. scheme ≡ hosted_scheme there) }
    ensures meets { IfOk result (λ there. MeetUrl scheme compares_paths there cell.now.literals) }
{
    match scheme {
        None => Ok(Url::Plain {
            scheme: pick_scheme(alloc, cell)?,
        }),
        Some(scheme) => Ok(Url::Hosted {
            scheme,
            host: pick_host(alloc, cell)?,
            port: pick_port(cell, scheme),
            path: path_where(alloc, cell, compares_paths)?,
        }),
    }
}

fn path_where(alloc: Global, cell: &Cell, compares_paths: bool) -> Result<Path, Memory>
    ensures some { IfOk result (λ path. path ≢ []) }
    ensures valid { IfOk result (λ path. IsTrue (list_all is_piece path)) }
    ensures root { IfOk result (λ path. compares_paths ≡ false → path ≡ [] ∷ []) }
    ensures meets { IfOk result (λ path. compares_paths ≡ true
        → MeetPart part.Path (path_holds path) cell.now.literals) }
{
    if compares_paths {
        pick_path(alloc, cell)
    } else {
        root_path(alloc)
    }
}

// The path `/`.
fn root_path(alloc: Global) -> Result<Path, Memory>
    ensures { IfOk result (λ path. path ≡ [] ∷ []) }
{
    let mut path = Path::new(alloc)?;
    path.push(b"")?;
    Ok(path)
}
