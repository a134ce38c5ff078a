// A board of blocks at home, with one seat, with two, and with a seat in each of two threads.
ghost use Rattle.std.specs.Prelude.{◌≡◌};

use buffer_blocks::Block;
use dx_types::{BlockNo, ChunkNo};
use slice_board::{Board, BoardSeat, Take};
use std::alloc::{AllocError, Global};
use std::process::Abort;
use std::test::Fail;
use std::thread::{Threads, join};

// A new block of class 0 or 1, which this chunk has retired.
#[derive(Clone, Copy)]
struct New {
    class: usize,
    number: BlockNo,
    retired: u32,
}

// A seat at its board.
#[derive(Drop)]
struct Desk<'a> {
    board: &'a Board,
    seat: BoardSeat,
    ghost at: { seat.board ≡ board.now },
}

impl Desk<'_> {
    // The chunk is done, and then its block goes home. The block's number, where it comes back.
    fn give(&mut self, alloc: Global, new: New) -> Result<Option<BlockNo>, AllocError>
        ensures { self.new.board.now ≡ self.old.board.now }
    {
        let (class, len) = if new.class == 0 { (0, 256) } else { (1, 1024) };
        let mut block = Block::new(alloc, new.number, len)?;
        block.retired = u64::from(new.retired);
        self.board.raise_done(&mut self.seat, block.retired);
        match self.board.give(&mut self.seat, class, block) {
            Ok(()) => Ok(None),
            Err(back) => Ok(Some(back.number)),
        }
    }

    // The number of the block that is taken, or how many places were looked at.
    fn take(&mut self, class: usize) -> Result<BlockNo, u32>
        ensures { self.new.board.now ≡ self.old.board.now }
    {
        match self.board.take(&mut self.seat, class.min(7)) {
            Take::Got(block) => Ok(block.number),
            Take::NoneFree { looked } => Err(looked),
        }
    }

    // Whether the step comes out as it says.
    fn does(&mut self, alloc: Global, step: Step) -> bool {
        match step {
            Step::Raise(chunk) => {
                self.board.raise_done(&mut self.seat, chunk.min(1000));
                self.board.done(&mut self.seat) == chunk
            }
            Step::Fill(count) => fill(alloc, self, count) == count,
            Step::Lands(new) => matches!(self.give(alloc, new), Ok(None)),
            Step::ComesBack(new) => {
                matches!(self.give(alloc, new), Ok(Some(number)) if number == new.number)
            }
            Step::Takes(class, found) => self.take(class) == found,
        }
    }
}

// What a seat does, and what must come of it.
#[derive(Clone, Copy)]
enum Step {
    /// The greatest number is raised to this one, and read.
    Raise(ChunkNo),
    /// So many blocks of class 0 find places.
    Fill(u32),
    Lands(New),
    ComesBack(New),
    /// Of this class the block, or how many places are looked at.
    Takes(usize, Result<BlockNo, u32>),
}

const fn unretired(class: usize, number: BlockNo) -> New {
    New {
        class,
        number,
        retired: 0,
    }
}

// So many blocks of class 0 go home that no chunk has retired. It answers how many find a place.
fn fill(alloc: Global, desk: &mut Desk<'_>, count: u32) -> u32 {
    let mut landed = 0u32;
    for number in 0..count {
        if matches!(desk.give(alloc, unretired(0, number)), Ok(None)) {
            landed = landed.wrapping_add(1);
        }
    }
    landed
}

// The one seat of a board takes these steps.
fn alone(rt: &impl Abort, alloc: Global, steps: &[Step]) -> Result<(), Fail> {
    let (board, seat) = Board::new(alloc)?;
    let mut desk = Desk {
        board: &board,
        seat,
    };
    for (i, step) in steps.iter().enumerate() {
        assert!(rt; desk.does(alloc, *step), "step {i}");
    }
    Ok(())
}

#[test]
fn one_seat_takes_what_it_gave(rt: HostRuntime) -> Result<(), Fail> {
    let new = New {
        class: 0,
        number: 5,
        retired: 3,
    };
    let steps = [
        Step::Raise(3),
        Step::Lands(new),
        Step::Takes(0, Ok(5)),
        Step::Takes(0, Err(64)),
    ];
    alone(&rt, rt.alloc(), &steps)
}

#[test]
fn a_class_has_64_places(rt: HostRuntime) -> Result<(), Fail> {
    let steps = [Step::Fill(64), Step::ComesBack(unretired(0, 64))];
    alone(&rt, rt.alloc(), &steps)
}

#[test]
fn the_lowest_place_is_used_first(rt: HostRuntime) -> Result<(), Fail> {
    let steps = [
        Step::Lands(unretired(1, 9)),
        Step::Fill(2),
        Step::Takes(0, Ok(0)),
        Step::Lands(unretired(0, 5)),
        Step::Takes(0, Ok(5)),
        Step::Takes(0, Ok(1)),
        Step::Takes(0, Err(64)),
        Step::Takes(1, Ok(9)),
    ];
    alone(&rt, rt.alloc(), &steps)
}

#[test]
fn a_second_seat_takes_what_the_first_gave(rt: HostRuntime) -> Result<(), Fail> {
    let (board, mut seat) = Board::new(rt.alloc())?;
    let second = board.split(&mut seat);
    let mut first = Desk {
        board: &board,
        seat,
    };
    let mut second = Desk {
        board: &board,
        seat: second,
    };
    let new = New {
        class: 0,
        number: 1,
        retired: 7,
    };
    assert!(rt; matches!(first.give(rt.alloc(), new), Ok(None)));
    board.done(&mut second.seat);
    assert!(rt; second.take(0) == Ok(1));
    board.join(&mut first.seat, second.seat);
    Ok(())
}

// How many of 64 takes get a block.
fn taken(desk: Desk<'_>) -> u32 {
    let mut desk = desk;
    let mut count = 0u32;
    for _ in 0..64 {
        if desk.take(0).is_ok() {
            count = count.wrapping_add(1);
        }
    }
    count
}

fn taken_by_two<R: Threads + Sync>(rt: &R, first: Desk<'_>, second: Desk<'_>) -> u32 {
    let (a, b) = join(rt, move || taken(first), move || taken(second));
    a.wrapping_add(b)
}

#[test]
fn two_threads_take_each_block_once(rt: HostRuntime) -> Result<(), Fail> {
    let (board, mut seat) = Board::new(rt.alloc())?;
    let second = board.split(&mut seat);
    let mut first = Desk {
        board: &board,
        seat,
    };
    let second = Desk {
        board: &board,
        seat: second,
    };
    assert_eq!(rt; fill(rt.alloc(), &mut first, 50), 50);
    assert_eq!(rt; taken_by_two(&rt, first, second), 50);
    Ok(())
}
