// A relay of messages, used by one thread, and by one at each end.
ghost use Rattle.std.specs.Prelude.{◌≡◌, ◌<◌, ◌^◌, [], ◌∷◌, ◌++◌, length, IfOk, IsTrue};
ghost use Rattle.relay_queue.specs.Succession.{IsNext};

use relay_queue::{LogName, Numbered, Relay, Sending, Taking};
use std::alloc::{AllocError, Global};
use std::marker::Brand;
use std::sync::Wait;
use std::test::Fail;
use std::thread;
use std::thread::{Threads, join};

/// Letter n brings the n-th byte of the log.
#[derive(Drop)]
struct Letter {
    number: u64,
    byte: u8,
}

impl Numbered for Letter {
    ghost use Rattle.std.specs.Prelude.{◌≡◌, length, slice_index};

    ghost number_of = { λ m. m.number };

    ghost first = { λ log m. m.byte ≡ slice_index log 0 };

    ghost follows = { λ log before m. m.byte ≡ slice_index log (length before) };

    fn number(&self) -> u64 {
        self.number
    }
}

// A relay with both of its passes. Each letter brings a byte 0.
#[derive(Drop)]
struct Line {
    relay: Relay<Brand, Letter>,
    to: Sending<Brand, Letter>,
    from: Taking<Brand, Letter>,
    sent: u32,
    ghost sends: { to.queue ≡ relay.queue },
    ghost takes: { from.queue ≡ relay.queue },
    ghost count: { length to.messages ≡ sent },
}

impl Line {
    // Sends the next letter. Its number, where it comes back.
    fn push<R: Wait>(&mut self, rt: &R) -> Option<u64> {
        let next = self.sent.checked_add(1)?;
        let letter = Letter {
            number: u64::from(next),
            byte: 0,
        };
        match self.relay.push(rt, &mut self.to, letter) {
            Ok(()) => {
                self.sent = next;
                None
            }
            Err(back) => Some(back.number),
        }
    }

    // Takes a letter. Its number, where there is one.
    fn pop<R: Wait>(&mut self, rt: &R) -> Option<u64> {
        match self.relay.pop(rt, &mut self.from) {
            Some(letter) => Some(letter.number()),
            None => None,
        }
    }
}

// What is done, and the number of the letter that comes of it.
#[derive(Clone, Copy)]
enum Step {
    /// The next letter is sent, or this one comes back.
    Push(Option<u64>),
    /// This letter is taken, or none is there.
    Pop(Option<u64>),
}

const STEPS: [Step; 7] = [
    Step::Pop(None),
    Step::Push(None),
    Step::Push(Some(2)),
    Step::Pop(Some(1)),
    Step::Pop(None),
    Step::Push(None),
    Step::Pop(Some(2)),
];

#[test]
fn a_relay_of_one_place(rt: HostRuntime) -> Result<(), Fail> {
    let (relay, to, from) = Relay::new(rt.alloc(), 1)?;
    let mut line = Line {
        relay,
        to,
        from,
        sent: 0,
    };
    for (i, step) in STEPS.iter().enumerate() {
        let (found, wanted) = match *step {
            Step::Push(wanted) => (line.push(&rt), wanted),
            Step::Pop(wanted) => (line.pop(&rt), wanted),
        };
        assert_eq!(rt; found, wanted, "step {i}");
    }
    Ok(())
}

// Tries until the message is sent.
fn send_one<N: LogName, M: Numbered + Drop, R: Wait>(
    rt: &R,
    relay: &Relay<N, M>,
    pass: &mut Sending<N, M>,
    m: M,
)
    requires queue { pass.old.queue ≡ relay.now.queue }
    requires next { IsNext N.log M.number_of M.first M.follows pass.old.messages m }
    requires number { M.number_of m < 2 ^ 62 }
    ensures queue { pass.new.queue ≡ pass.old.queue }
    ensures sent { pass.new.messages ≡ pass.old.messages ++ m ∷ [] }
{
    let mut next = m;
    'tries: for _ in rt.forever() {
        match relay.push(rt, pass, next) {
            Ok(()) => return,
            Err(back) => next = back,
        }
        thread::yield_now();
    }
    unreachable!()
}

// Sends these bytes, which are those of the log.
fn send<N: LogName, R: Wait>(
    rt: &R,
    relay: &Relay<N, Letter>,
    mut pass: Sending<N, Letter>,
    bytes: &[u8],
)
    requires queue { pass.queue ≡ relay.now.queue }
    requires start { pass.messages ≡ [] }
    requires count { length bytes.now < 2 ^ 61 }
    requires log { bytes.now ≡ N.log }
{
    let mut number = 0u64;
    for byte in bytes {
        number += 1;
        send_one(
            rt,
            relay,
            &mut pass,
            Letter {
                number,
                byte: *byte,
            },
        );
    }
}

// Tries until a message has come.
fn take_one<N: LogName, M: Numbered + Drop, R: Wait>(
    rt: &R,
    relay: &Relay<N, M>,
    pass: &mut Taking<N, M>,
) -> M
    requires { pass.old.queue ≡ relay.now.queue }
    ensures queue { pass.new.queue ≡ pass.old.queue }
    ensures taken { pass.new.messages ≡ pass.old.messages ++ result ∷ [] }
    ensures next { IsNext N.log M.number_of M.first M.follows pass.old.messages result }
{
    'tries: for _ in rt.forever() {
        if let Some(m) = relay.pop(rt, pass) {
            return m;
        }
        thread::yield_now();
    }
    unreachable!()
}

// Takes a letter for each of these bytes, and finds them to be those of the log, in order.
fn receive<N: LogName, R: Wait>(
    rt: &R,
    relay: &Relay<N, Letter>,
    mut pass: Taking<N, Letter>,
    bytes: &[u8],
) -> bool
    requires queue { pass.queue ≡ relay.now.queue }
    requires start { pass.messages ≡ [] }
    requires log { bytes.now ≡ N.log }
    ensures { IsTrue result }
{
    for (i, byte) in bytes.iter().enumerate() {
        let letter = take_one(rt, relay, &mut pass);
        if letter.byte != *byte || letter.number() != i as u64 + 1 {
            return false;
        }
    }
    true
}

fn exchange<N: LogName + Send + Sync, R: Threads + Wait + Sync>(
    rt: &R,
    alloc: Global,
    bytes: &[u8],
) -> Result<bool, AllocError>
    requires count { length bytes.now < 2 ^ 61 }
    requires log { bytes.now ≡ N.log }
    ensures { IfOk result (λ right. IsTrue right) }
{
    let (relay, to, from) = Relay::<N, Letter>::new(alloc, 4)?;
    let line = &relay;
    let (_, right) = join(
        rt,
        move || -> ()
            requires { (to.queue ≡ line.now.queue) × (to.messages ≡ []) × (length bytes.now < 2 ^ 61) × (bytes.now ≡ N.log) }
        { send(rt, line, to, bytes) },
        move || -> bool
            requires { (from.queue ≡ line.now.queue) × (from.messages ≡ []) × (bytes.now ≡ N.log) }
            ensures { IsTrue result }
        { receive(rt, line, from, bytes) },
    );
    Ok(right)
}

fn text(alloc: Global) -> Result<Vec<u8>, AllocError> {
    let mut bytes = Vec::new(alloc);
    for i in 0..1000u32 {
        bytes.push((i % 251) as u8)?;
    }
    Ok(bytes)
}

#[test]
fn a_text_goes_from_thread_to_thread(rt: HostRuntime) -> Result<(), Fail> {
    let bytes = text(rt.alloc())?;
    assert!(rt; bytes.len() == 1000);
    assert!(rt; exchange::<Brand, _>(&rt, rt.alloc(), bytes.as_slice())?);
    Ok(())
}
