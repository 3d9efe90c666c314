// Runs a study: standard input to a page of 65,536 bytes to standard output.
#![tactic(auto)]

use run::export::waskurin_run;
use std::io;
use std::io::{Read, Write};

const PAGE: usize = 65_536;

fn main(rt: HostRuntime) -> Result<(), io::Error> {
    let heap = rt.alloc();
    let mut text = Vec::new(heap);
    let _read = rt.stdin().read_to_end(&mut text)?;
    let mut page = vec![in heap; 0u8; PAGE]?;
    let end = waskurin_run(heap, text.as_slice(), page.as_mut_slice());
    if end > page.len() {
        return Ok(());
    }
    rt.stdout().write_all(&page[0..end])
}
