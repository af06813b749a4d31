// The lookup of each service point, and of DSAPs that are none: the DSAP, what was found, and at how many entries of the table the lookup
// looked.
#![tactic(auto)]

use points::look_up;
use std::io;

fn print_lookup(rt: &impl Print, dsap: u8) -> io::Result<()> {
    let lookup = look_up(dsap);
    let looked_at = lookup.looked_at;
    match lookup.found {
        Some(point) => println!(rt; "{dsap} {point} {looked_at}"),
        None => println!(rt; "{dsap} none {looked_at}"),
    }
}

fn main(rt: HostRuntime) -> io::Result<()> {
    print_lookup(&rt, 0)?;
    for dsap in 55..64 {
        print_lookup(&rt, dsap)?;
    }
    print_lookup(&rt, 255)
}
