//! An allocation that fails.
use crate::runs::{inputs, texts};
use csp_io::MemorySink;
use csp_model::List;
use csp_run::{Status, exit_code, run};
use std::test::Fail;

const IMAGE: &str = r#"[{"kind":"fetch","destination":"image","url":"https://b.example/x.png"}]"#;

// Tried with each allocation refused in turn, also those before the call.
#[test]
fn refused_memory_ends_whole(rt: HostRuntime) {
    let policy = "Content-Security-Policy: img-src ftp:";
    let Ok(words) = texts(rt.alloc(), &["judge", "https://a.example", "p", "r"]) else {
        return;
    };
    let Ok(mut files) = inputs(rt.alloc(), policy, IMAGE) else {
        return;
    };
    let Ok(mut out) = MemorySink::new(rt.alloc(), 100, 3, List::new(rt.alloc())) else {
        return;
    };
    let mut desk = Vec::new(rt.alloc());
    let status = run(rt.alloc(), &words, &mut files, &mut out, &mut desk);
    assert_eq!(rt; exit_code(Status::NoMemory), 10);
    if status == Status::NoMemory {
        assert_eq!(rt; out.taken(), b"no memory\n".as_slice());
    } else {
        assert_eq!(rt; status, Status::Found);
        assert_eq!(rt;
            out.taken(),
            b"1 blocked 0:enforce:img-src/img-src\n".as_slice()
        );
    }
}
