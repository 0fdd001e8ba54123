//! Tests of csp_url. What a text reads as is the URL Standard's.
use csp_model::{Host, Scheme, Url};
use csp_url::{Part, PartsError, UrlError, read_url, strip_url, url_from_parts, url_text};
use std::alloc::Global;
use std::test::Fail;

fn is_domain(host: &Host, text: &str) -> bool {
    matches!(host, Host::Domain(_)) && host.as_str() == text
}

fn has_every_part(url: &Url) -> bool {
    match url {
        Url::Hosted {
            scheme: Scheme::Https,
            host,
            port: None,
            path,
        } => { is_domain(host, "b.example") && path.as_str() == "/~b" }
        _ => false,
    }
}

const EVERY_PART: &str = "https://u:p@B.example:443/a/../%7Eb?q#f";

#[test]
fn a_url_with_every_part(rt: HostRuntime) -> Result<(), Fail> {
    let url = read_url(rt.alloc(), EVERY_PART)?;
    assert!(rt; has_every_part(&url));
    let text = url_text(rt.alloc(), &url);
    drop(url);
    assert_eq!(rt; text?.as_str(), "https://b.example/~b");
    let shown = strip_url(rt.alloc(), EVERY_PART)?;
    assert_eq!(rt; shown.as_str(), "https://b.example/%7Eb?q");
    Ok(())
}

#[test]
fn a_text_that_is_no_url(rt: HostRuntime) {
    assert_eq!(rt; read_url(rt.alloc(), "//").err(), Some(UrlError::NotAUrl));
}

type Parts<'a> = (&'a str, Option<&'a str>, Option<u32>, &'a str);

const NOT_JOINED: [(Parts<'static>, Part); 21] = [
    (("", Some("a"), None, "/"), Part::Scheme),
    (("HTTPS", None, Some(65536), ""), Part::Scheme),
    (("1a", None, None, "/"), Part::Scheme),
    (("https", None, Some(65536), ""), Part::Host),
    (("https", Some("B.example"), None, "/"), Part::Host),
    (("https", Some(""), None, "/"), Part::Host),
    (("https", Some("a.0x"), None, "/"), Part::Host),
    (("https", Some("a.1."), None, "/"), Part::Host),
    (("https", Some("10.0.0.01"), None, "/"), Part::Host),
    (("https", Some("10.0.0.256"), None, "/"), Part::Host),
    (("https", Some("10.0.1"), None, "/"), Part::Host),
    (("https", Some("[]"), None, "/"), Part::Host),
    (("https", Some("[::A]"), None, "/"), Part::Host),
    (("https", Some("a"), Some(65536), ""), Part::Port),
    (("https", Some("a"), Some(443), ""), Part::Path),
    (("https", Some("a"), None, "a/"), Part::Path),
    (("https", Some("a"), None, "/a/%2e./b"), Part::Path),
    (("https", Some("a"), None, "/."), Part::Path),
    (("data", Some("a"), Some(1), ""), Part::Host),
    (("data", None, Some(1), ""), Part::Port),
    (("data", None, None, "/x"), Part::Path),
];

// Why the parts make no URL.
fn refused(alloc: Global, (scheme, host, port, path): Parts<'_>) -> Option<PartsError> {
    url_from_parts(alloc, scheme, host, port, path).err()
}

#[test]
fn parts_of_no_url(rt: HostRuntime) {
    for &(parts, part) in &NOT_JOINED {
        let found = refused(rt.alloc(), parts);
        assert_eq!(rt; found, Some(PartsError::Bad { part }), "{part:?}");
    }
}
