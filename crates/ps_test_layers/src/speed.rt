//! How fast a text is scanned.

use anyhow::Result;
use ps_scan::{ScanFault, TokenKind, next_token};
use std::alloc::Global;
use std::time::Instant;

/// How many tokens a text has, and how many stand in its procedures.
#[derive(Clone, Copy)]
struct Counts {
    tokens: u64,
    inner: u64,
}

/// Scans a text to its end.
fn counts_of(alloc: Global, text: &[u8]) -> Result<Counts, ScanFault> {
    let mut counts = Counts {
        tokens: 0,
        inner: 0,
    };
    let mut at = 0;
    while at < text.len() {
        match next_token(alloc, text, at)? {
            None => break,
            Some(token) => {
                at = token.end;
                counts.tokens = counts.tokens.wrapping_add(1);
                if let TokenKind::Procedure(elements) = &token.kind {
                    counts.inner = counts.inner.wrapping_add(elements.len() as u64);
                }
            }
        }
    }
    Ok(counts)
}

/// Scans a text, and prints what it has; the nanoseconds go to standard error.
pub fn measure(rt: &HostRuntime, text: &[u8]) -> Result<()> {
    let start = Instant::now(rt)?;
    let Counts { tokens, inner } = counts_of(rt.alloc(), text)?;
    let nanoseconds = start.elapsed(rt)?.as_nanos();
    println!(rt; "{tokens} tokens, {inner} elements")?;
    eprintln!(rt; "{nanoseconds}")?;
    Ok(())
}
