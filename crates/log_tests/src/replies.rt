// The lines of replies, one of each form.
use dx_types::{ByteList, Refusal, Reply, reply_line};
use std::alloc::Global;
use std::process::Abort;
use std::test::Fail;

fn says(rt: &impl Abort, alloc: Global, reply: &Reply, line: &str) -> Result<(), Fail> {
    let said = reply_line(alloc, reply)?;
    assert_eq!(rt; said.as_str(), line);
    Ok(())
}

#[test]
fn lines(rt: HostRuntime) -> Result<(), Fail> {
    let alloc = rt.alloc();
    let bytes = ByteList::new([0, 255, 10].to_vec(alloc)?);
    says(
        &rt,
        alloc,
        &Reply::Bytes { n: 5, bytes },
        "5 bytes 00ff0a\n",
    )?;
    says(
        &rt,
        alloc,
        &Reply::Value { n: 10, value: 2 },
        "10 query 2\n",
    )?;
    let still = Reply::Still {
        n: 7,
        used: 6,
        done: 4,
    };
    says(&rt, alloc, &still, "7 still 6 4\n")?;
    let refused = Reply::Refused {
        n: 2,
        why: Refusal::WrongContext,
    };
    says(&rt, alloc, &refused, "2 refused WrongContext\n")?;
    says(&rt, alloc, &Reply::Finished { calls: 5 }, "end 5\n")?;
    assert_eq!(rt; Refusal::UnknownList.number(), 18);
    Ok(())
}
