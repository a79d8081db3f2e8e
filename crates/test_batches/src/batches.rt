//! Tests of plans and orders of small scripts.
use photo_batcher::{Plan, lawful, plan};
use photo_script::{Script, read_script};
use std::alloc::Global;

// Two devices make a picture each. A second device pulls each picture, and then a third.
const FOUR_DEVICES: &str =
    "device a all\ndevice b all\ndevice c all\ndevice d all\nnew a 1 5 2024-01-01 -\nnew c 2 4 2024-01-01 -\npull b a\npull d c\npull c b\nlist a\npull d a\n";

// The device in a version's name isn't one of the command's devices.
const NAMED: &str = "device a all\ndevice b all\nknows a 7 b:1\nnew b 7 5 2024-01-01 -\n";

// A question about a plan, with the right answer.
enum Asked {
    // The batch of each command, and the command that it goes after, or 0.
    Places(&'static [(u32, u32)]),
    // The commands of each batch.
    Members(&'static [&'static [u32]]),
    // The longest chain that ends with a command.
    Chain(u32, &'static [u32]),
}

const PLANS: &[(&str, Asked)] = &[
    (
        FOUR_DEVICES,
        Asked::Places(&[(0, 0), (0, 0), (1, 1), (1, 2), (2, 4), (2, 3), (3, 6)]),
    ),
    (
        FOUR_DEVICES,
        Asked::Members(&[&[1, 2], &[3, 4], &[5, 6], &[7]]),
    ),
    // a chain goes back to the later of two commands
    (FOUR_DEVICES, Asked::Chain(7, &[1, 3, 6, 7])),
    (FOUR_DEVICES, Asked::Chain(5, &[2, 4, 5])),
    (FOUR_DEVICES, Asked::Chain(2, &[2])),
    (NAMED, Asked::Members(&[&[1, 2]])),
    ("", Asked::Places(&[])),
    ("", Asked::Members(&[])),
    ("device a all", Asked::Places(&[])),
    ("device a all", Asked::Members(&[])),
];

const ORDERS: &[(&str, &[u32], bool)] = &[
    (FOUR_DEVICES, &[1, 2, 3, 4, 5, 6, 7], true),
    (FOUR_DEVICES, &[2, 1, 4, 3, 6, 5, 7], true),
    (FOUR_DEVICES, &[3, 1, 2, 4, 5, 6, 7], false),
    (FOUR_DEVICES, &[1, 2, 3, 4, 5, 6], false),
    (FOUR_DEVICES, &[1, 1, 2, 3, 4, 5, 6, 7], false),
    (FOUR_DEVICES, &[1, 1, 2, 3, 4, 5, 6], false),
    (FOUR_DEVICES, &[0, 1, 2, 3, 4, 5, 6], false),
    (FOUR_DEVICES, &[1, 2, 3, 4, 5, 6, 8], false),
    (FOUR_DEVICES, &[1, 2, 3, 5, 4, 6, 7], false),
    (FOUR_DEVICES, &[], false),
    (NAMED, &[2, 1], true),
    ("", &[], true),
    ("", &[1], false),
    ("device a all", &[], true),
    ("device a all", &[1], false),
];

fn is_planned(alloc: Global, text: &str, asked: &Asked) -> bool {
    match read_script(alloc, text.as_bytes()) {
        Ok(script) => has_plan(alloc, &script, asked),
        Err(_) => false,
    }
}

fn has_plan(alloc: Global, script: &Script, asked: &Asked) -> bool {
    match plan(alloc, script) {
        Ok(plan) => has(alloc, &plan, asked),
        Err(_) => false,
    }
}

fn is_judged(alloc: Global, text: &str, order: &[u32], right: bool) -> bool {
    match read_script(alloc, text.as_bytes()) {
        Ok(script) => lawful(alloc, &script, order) == Ok(right),
        Err(_) => false,
    }
}

fn has(alloc: Global, plan: &Plan, asked: &Asked) -> bool {
    match asked {
        Asked::Places(places) => has_places(plan, places),
        Asked::Members(members) => has_members(plan, members),
        Asked::Chain(number, chain) => is_chain(alloc, plan, *number, chain),
    }
}

fn has_places(plan: &Plan, places: &[(u32, u32)]) -> bool {
    if plan.commands() as usize != places.len() {
        return false;
    }
    for place in 0..plan.commands() {
        let (batch, after) = places[place as usize];
        if plan.batch_of(place + 1) != batch || plan.after(place + 1).unwrap_or(0) != after {
            return false;
        }
    }
    true
}

fn has_members(plan: &Plan, members: &[&[u32]]) -> bool {
    if plan.batches() as usize != members.len() {
        return false;
    }
    for batch in 0..plan.batches() {
        if plan.members(batch) != members[batch as usize] {
            return false;
        }
    }
    true
}

fn is_chain(alloc: Global, plan: &Plan, number: u32, wanted: &[u32]) -> bool {
    if number == 0 || number > plan.commands() {
        return false;
    }
    match plan.chain_of(alloc, number) {
        Ok(chain) => chain.as_slice() == wanted,
        Err(_) => false,
    }
}

#[test]
fn answers_of_plans(rt: HostRuntime) {
    for (text, asked) in PLANS {
        assert!(rt; is_planned(rt.alloc(), text, asked), "{text}");
    }
}

#[test]
fn lawful_orders(rt: HostRuntime) {
    for (text, order, right) in ORDERS {
        assert!(rt;
            is_judged(rt.alloc(), text, order, *right),
            "{order:?} of {text}"
        );
    }
}
