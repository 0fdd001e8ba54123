//! URLs in parts.
ghost use Rattle.std.specs.Prelude.{◌≡◌, IfOk};
ghost use Rattle.serde_json.specs.View.{view};
ghost use Rattle.csp_request.specs.Printed as spec;

use csp_model::{Memory, Url};
use serde_json::{Value, json};
use std::alloc::Global;

fn port_value(port: Option<u16>) -> Value
    ensures { view result ≡ spec.port_data port }
{
    match port {
        None => Value::Null,
        Some(number) => Value::from(number),
    }
}

// A URL in parts.
pub(crate) fn url_value(alloc: Global, url: &Url) -> Result<Value, Memory>
    ensures { IfOk result (λ value. view value ≡ spec.url_data url.now) }
{
    match url {
        Url::Plain { scheme } => Ok(json!(in alloc; {"scheme": scheme.as_str()})?),
        Url::Hosted {
            scheme,
            host,
            port,
            path,
        } => Ok(json!(in alloc; {
            "host": host.as_str(),
            "path": path.as_str(),
            "port": port_value(*port),
            "scheme": scheme.as_str()
        })?),
    }
}
