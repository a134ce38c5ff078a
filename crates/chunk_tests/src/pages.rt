//! Pages of staging memory.

use crate::blocks::part;
use buffer_blocks::Block;
use staging_pages::{Page, Pages};
use std::process::Abort;
use std::test::Fail;

pub(crate) fn next(pages: &mut Pages, number: u32, len: u64) -> Result<Page, Fail> {
    if len > 16_777_216 {
        return Err("no page is that long".into());
    }
    Ok(pages.next(number, len)?)
}

/// Stages so many bytes of this value, if as many are left.
pub(crate) fn stage(page: &mut Page, len: u64, byte: u8) -> bool {
    match page.part(len) {
        Some(part) => {
            part.fill(byte);
            true
        }
        None => false,
    }
}

// How many bytes the next part has, if there is one.
fn part_len(page: &mut Page, len: u64) -> Option<usize> {
    match page.part(len) {
        Some(part) => Some(part.len()),
        None => None,
    }
}

fn parts_of_a_least_page(rt: &impl Abort, pages: &mut Pages) -> Result<(), Fail> {
    let mut page = next(pages, 600, 10)?;
    assert_eq!(rt; page.number(), 600);
    assert_eq!(rt; page.used(), 0);
    assert_eq!(rt; page.left(), 1_048_576);
    for (len, part) in [(1_048_576, Some(1_048_576)), (1, None), (0, Some(0))] {
        assert_eq!(rt; part_len(&mut page, len), part, "{len} bytes");
    }
    Ok(())
}

// So many bytes of a value, whether they fit, and how many bytes are used then.
struct Staged {
    len: u64,
    byte: u8,
    fits: bool,
    used: u64,
}

const TO_THE_END: [Staged; 4] = [
    Staged {
        len: 3,
        byte: 1,
        fits: true,
        used: 3,
    },
    Staged {
        len: 2,
        byte: 2,
        fits: true,
        used: 5,
    },
    Staged {
        len: 1_048_576,
        byte: 9,
        fits: false,
        used: 5,
    },
    Staged {
        len: 1_048_575,
        byte: 3,
        fits: true,
        used: 1_048_580,
    },
];

fn stages_to_the_end(rt: &impl Abort, page: &mut Page) {
    for row in &TO_THE_END {
        assert_eq!(rt;
            stage(page, row.len, row.byte),
            row.fits,
            "{} bytes",
            row.len
        );
        assert_eq!(rt; page.used(), row.used, "{} bytes", row.len);
    }
    assert_eq!(rt; page.left(), 0);
}

fn parts_of_a_longer_page(rt: &impl Abort, pages: &mut Pages) -> Result<(), Fail> {
    let mut page = next(pages, 601, 1_048_580)?;
    assert_eq!(rt; page.number(), 601);
    assert_eq!(rt; page.left(), 1_048_580);
    stages_to_the_end(rt, &mut page);
    let block = page.into_block();
    assert_eq!(rt; block.len(), 1_048_580);
    assert_eq!(rt; part(&block, 0, 7)?, [1, 1, 1, 2, 2, 3, 3].as_slice());
    Ok(())
}

#[test]
fn parts_in_order(rt: HostRuntime) -> Result<(), Fail> {
    let mut pages = Pages::new(rt.alloc());
    parts_of_a_least_page(&rt, &mut pages)?;
    parts_of_a_longer_page(&rt, &mut pages)
}

#[test]
fn pages_come_back(rt: HostRuntime) -> Result<(), Fail> {
    let alloc = rt.alloc();
    let mut pages = Pages::new(alloc);
    for (number, len) in [(512, 4), (513, 9), (514, 8), (515, 9)] {
        pages.give(Block::new(alloc, number, len)?)?;
    }
    for (len, number) in [(9, 513), (5, 514), (9, 515), (0, 512), (0, 700)] {
        let page = next(&mut pages, 700, len)?;
        assert_eq!(rt; page.number(), number, "{len} bytes");
        assert_eq!(rt; page.used(), 0, "{len} bytes");
    }
    Ok(())
}
