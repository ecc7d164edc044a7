// Plays the sessions W5 and W6 of document 01 through the public calls, collecting nothing before the end, and writes each queue in
// hexadecimal, a line a node.
#![tactic(auto)]

use bus_state::{PAYLOAD_BYTES, QUEUE_BYTES};
use lines::Line;
use owned_slots::Bus;
use std::io::Stdout;

// W1: ID 15, data AA BB.
const W1: [u8; 18] = [
    0x10, 0, 0, 0, 0x12, 0, 0, 0, 0x0F, 0, 0, 0, 0, 0, 2, 0, 0xAA, 0xBB,
];

// ID 16, no data.
const ID_16: [u8; 16] = [0x10, 0, 0, 0, 0x10, 0, 0, 0, 0x10, 0, 0, 0, 0, 0, 0, 0];

// Configuration: ARBITRATION_LOST_BEHAVIOR is DISCARD_AND_NOTIFY.
const DISCARD: [u8; 10] = [0x40, 0, 0, 0, 0x0A, 0, 0, 0, 4, 2];

const NODES: u32 = 3;

// Collects each node's queue and writes it.
fn write_queues(out: Stdout, bus: &mut Bus, payload: &[u8], queues: &[u8]) {
    for node in 0..NODES {
        // Stays: the caller's buffer of a collect, whose length the answer gives (kf_collect).
        let mut buffer = [0; 4096];
        let answer = bus.collect(payload, queues, node, &mut buffer);
        if let Some(queue) = buffer.get(..usize::from(answer.length)) {
            Line::new(out).hex_bytes(queue).end();
        }
    }
}

// Node 0 submits W1, node 1, which discards, ID 16; one round.
fn play_w5(out: Stdout) {
    let mut payload = [0; PAYLOAD_BYTES];
    let mut queues = [0; QUEUE_BYTES];
    let mut bus = Bus::new();
    bus.start(&payload, &queues, NODES);
    bus.submit(&mut payload, &mut queues, 0, &W1);
    bus.submit(&mut payload, &mut queues, 1, &DISCARD);
    bus.submit(&mut payload, &mut queues, 1, &ID_16);
    bus.round(&mut payload, &mut queues, 0, 0, 0);
    write_queues(out, &mut bus, &payload, &queues);
}

// The same with node 1 buffering, and a second round.
fn play_w6(out: Stdout) {
    let mut payload = [0; PAYLOAD_BYTES];
    let mut queues = [0; QUEUE_BYTES];
    let mut bus = Bus::new();
    bus.start(&payload, &queues, NODES);
    bus.submit(&mut payload, &mut queues, 0, &W1);
    bus.submit(&mut payload, &mut queues, 1, &ID_16);
    bus.round(&mut payload, &mut queues, 0, 0, 0);
    bus.round(&mut payload, &mut queues, 0, 0, 0);
    write_queues(out, &mut bus, &payload, &queues);
}

fn main(rt: HostRuntime) {
    play_w5(rt.stdout());
    play_w6(rt.stdout());
}
