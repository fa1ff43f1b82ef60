//! Who may come up, by what a site file says.

use dia_base::NodeNo;
use farm_access::{Access, Coming, canonical};
use std::alloc::Global;
use std::net::IpAddr;

/// A client for each form of the key.
const FILE: &str = r#"
node = [
  { name = "anywhere.example" },
  { name = "nowhere.example", from = [] },
  { name = "part.example", from = ["192.0.2.128/25"] },
  { name = "one.example", from = ["192.0.2.7", "2001:db8::7"] },
  { name = "four.example", from = ["0.0.0.0/0"] },
  { name = "six.example", from = ["::/0"] },
  { name = "exact.example", from = ["192.0.2.7/32", "2001:db8::7/128"] },
  { name = "wide.example", from = ["2001:db8::/31"] },
]
"#;

/// A file whose nodes come from one half of a network, or from nowhere.
const CLOSED: &str = r#"node = [{ from = ["192.0.2.128/25"] }, { from = [] }]"#;

/// A file that holds to names, and has the other words, which are of no account here. The site has the first and the third node connect ([`CALLERS`]).
const STRICT: &str = r#"
strict = ["end-to-end", "names", "goodbyes"]
node = [
  { name = "caller.example" },
  { name = "called.example" },
  { name = "part.example", from = ["192.0.2.128/25"] },
  { name = "own.example", from = ["192.0.2.7"] },
]
"#;

/// The nodes that connect.
const CALLERS: [NodeNo; 2] = [NodeNo(0), NodeNo(2)];

/// Addresses: on both sides of each border.
const ADDRESSES: [&str; 10] = [
    "192.0.2.7",
    "192.0.2.6",
    "192.0.2.127",
    "192.0.2.128",
    "192.0.2.255",
    "192.0.3.0",
    "::ffff:192.0.2.7",
    "2001:db8::7",
    "2001:db9:ffff::1",
    "2001:dba::",
];

/// Texts that may not stand there, and two files that are none.
const REFUSED: [&str; 22] = [
    "node = [{ from = [\"192.0.2.0/33\"] }]",
    "node = [{ from = [\"2001:db8::/129\"] }]",
    "node = [{ from = [\"192.0.2.0/\"] }]",
    "node = [{ from = [\"192.0.2.0/+8\"] }]",
    "node = [{ from = [\"192.0.2.0/8/8\"] }]",
    "node = [{ from = [\"192.0.2/24\"] }]",
    "node = [{ from = [\"/24\"] }]",
    "node = [{ from = [\"\"] }]",
    "node = [{ from = [\"c1.example\"] }]",
    "node = [{ from = [\"[::1]\"] }]",
    "node = [{ from = \"192.0.2.0/24\" }]",
    "node = [{ from = [192] }]",
    "strict = \"names\"",
    "strict = [\"names\", 7]",
    "strict = [\"name\"]",
    "strict = [\"Names\"]",
    "strict = [\"end\"]",
    "strict = [\"names\", \"farewells\"]",
    "strict = [\"names\", \"names\"]",
    "strict = [\"end-to-end\", \"names\", \"end-to-end\"]",
    "node = [7]",
    "node = [",
];

/// Prints whether some node may come from an address, and those that may not.
fn print_address(
    rt: &impl Print,
    text: &str,
    admitted: bool,
    barred: &[NodeNo],
) -> anyhow::Result<()> {
    print!(rt; "{text}: admitted {admitted}, not")?;
    for node in barred {
        print!(rt; " {}", node.0)?;
    }
    println!(rt; "")?;
    Ok(())
}

/// The same of each address.
fn print_addresses(rt: &impl Print, alloc: Global, access: &Access) -> anyhow::Result<()> {
    for text in ADDRESSES {
        if let Ok(address) = text.parse::<IpAddr>() {
            let address = canonical(address);
            let barred = access.barred(alloc, &CALLERS, address)?;
            print_address(rt, text, access.admits(address), &barred)?;
        }
    }
    Ok(())
}

/// Prints why each text is refused.
fn print_refused(rt: &impl Print, alloc: Global) -> anyhow::Result<()> {
    for text in REFUSED {
        match Access::read(alloc, text.as_bytes()) {
            Ok(_) => println!(rt; "{text}: read")?,
            Err(fault) => println!(rt; "{text}: {fault}")?,
        }
    }
    Ok(())
}

/// Prints whether the ninth node may come up, of which the site says nothing, where it connects as the site has it.
fn print_ninth(rt: &impl Print, access: &Access) -> anyhow::Result<()> {
    if let Ok(address) = "192.0.2.128".parse::<IpAddr>() {
        let coming = Coming::Connects {
            address,
            is_caller: true,
        };
        let ninth = access.may_come_up(NodeNo(8), coming);
        println!(rt; "the ninth node: {ninth}")?;
    }
    Ok(())
}

/// Prints whether a node may come up that was connected to, by the name that it answers with.
fn print_answers(rt: &impl Print, access: &Access) -> anyhow::Result<()> {
    let own = access.may_come_up(NodeNo(0), Coming::Answers { is_named: true });
    let other = access.may_come_up(NodeNo(0), Coming::Answers { is_named: false });
    println!(rt; "answers under its own name: {own}, under another one: {other}")?;
    Ok(())
}

/// Prints who may come from where, whether the ninth node may, and under which name a node may answer.
fn print_access(rt: &impl Print, alloc: Global, access: &Access) -> anyhow::Result<()> {
    print_addresses(rt, alloc, access)?;
    print_ninth(rt, access)?;
    print_answers(rt, access)
}

/// The same by a file.
fn print_file(rt: &impl Print, alloc: Global, text: &str) -> anyhow::Result<()> {
    let access = Access::read(alloc, text.as_bytes())?;
    print_access(rt, alloc, &access)
}

/// Who may come up.
pub fn print_all(rt: &impl Print, alloc: Global) -> anyhow::Result<()> {
    print_file(rt, alloc, FILE)?;
    print_file(rt, alloc, CLOSED)?;
    print_file(rt, alloc, STRICT)?;
    print_refused(rt, alloc)
}
