//! A test of a digest that csp_token makes.
use csp_token::{digest_matches, digests, read_integrity};
use std::test::Fail;

// The standard base64 of the SHA-256 digest of no bytes.
#[test]
fn the_digest_of_no_bytes(rt: HostRuntime) -> Result<(), Fail> {
    let metadata = "sha256-47DEQpj8HBSa+/TImW+5JCeuQeRkm5NMpJWZG3hSuFU=";
    let hashes = read_integrity(rt.alloc(), metadata)?;
    let hash = hashes.get(0).ok_or("no hash")?;
    assert!(rt; digest_matches(hash, &digests(b"")));
    assert!(rt; !digest_matches(hash, &digests(b"x")));
    Ok(())
}
