//! Words that have a form, and words that have none.

use frame_words::read_words;
use std::alloc::{AllocError, Global};
use std::test::Fail;

// These words.
fn words(alloc: Global, texts: &[&str]) -> Result<Vec<String>, AllocError> {
    let mut words = Vec::new(alloc);
    for text in texts {
        words.push(String::from_str(alloc, text)?)?;
    }
    Ok(words)
}

#[test]
fn forms(rt: HostRuntime) -> Result<(), Fail> {
    let cases = [
        (
            ["--workers", "15", "--block=1024"].as_slice(),
            Some((15, 1024)),
        ),
        (&[], Some((4, 8192))),
        (&["--block", "65536"], Some((4, 65_536))),
        (&["--block", "512"], None),
        (&["--workers", "16"], None),
        (&["--workers", "0"], None),
        (&["--workers=1", "--workers=1"], None),
        (&["--block"], None),
        (&["8192"], None),
        (&["--blocks", "8192"], None),
    ];
    for (texts, wanted) in cases {
        let words = words(rt.alloc(), texts)?;
        let found = read_words(&words).map(|options| (options.workers, options.block));
        assert!(rt; found == wanted);
    }
    Ok(())
}
