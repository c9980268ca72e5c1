// What the program writes of what a call answers. Its outputs are fixed, so a reply and a fence are written in words of its own.
use monitor::Reply;
use std::io;
use types::{Answer, Fence, Refusal};

fn stores(rt: &impl Print, count: u64, all: bool) -> io::Result<()> {
    print!(rt; ": {count} ")?;
    if count == 1 {
        print!(rt; "store, ")?;
    } else {
        print!(rt; "stores, ")?;
    }
    if all {
        print!(rt; "all")
    } else {
        print!(rt; "not all")
    }
}

pub fn reply(rt: &impl Print, r: Result<Reply, Refusal>) -> io::Result<()> {
    match r {
        Ok(Reply::Opened) => print!(rt; ": opened"),
        Ok(Reply::Closed) => print!(rt; ": closed"),
        Ok(Reply::Edited(count, all)) => stores(rt, count, all),
        Err(why) => print!(rt; ": {why}"),
    }
}

pub fn fence(rt: &impl Print, f: Fence) -> io::Result<()> {
    match f {
        Fence::Nothing => println!(rt; ", no fence"),
        Fence::Domain(sdid) => println!(rt; ", fence of domain {}", sdid.0),
        Fence::One(address, sdid) => println!(rt;
            ", fence of domain {} at 0x{:x}",
            sdid.0, address.0
        ),
    }
}

pub fn answer(rt: &impl Print, a: Result<Answer, Refusal>) -> io::Result<()> {
    match a {
        Ok(answer) => println!(rt; ": {answer}"),
        Err(why) => println!(rt; ": {why}"),
    }
}
