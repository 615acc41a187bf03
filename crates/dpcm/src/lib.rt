// Compressed sound: 16-bit samples by steps from the last ones (DPCM).
#![tactic(auto)]

ghost use Rattle.std.specs.Prelude.{◌≡◌, ◌+◌, ◌*◌, ◌/◌, ◌%◌, ◌<◌, ◌≤◌, length, take, slice_set};
ghost use Rattle.room.specs.Room.{written, NextByte};
ghost use Rattle.dpcm.specs.Samples.{sample_after, samples, last_of, bytes_of};
ghost use Rattle.dpcm.specs.Stride.{HoldsOrNone, NextHalf, NextSample, NextChannel, put_at, channel_first, channel_last, channel_room};
ghost use Rattle.dpcm.specs.Packet.{channels, start_words, first_samples, start_length, packet_first, leading, packet_samples, packet_last, Fits, FitsOrNone};

use std::num::wrapping_add_u16;
use steps::step_of;
use words::{part_from, word_at};

// The last sample of the channel whose turn is next, and of the other one. Between packets left is next; mono has no other.
#[derive(Clone, Copy)]
pub struct Last {
    pub next: u16,
    pub other: u16,
}

// The sample behind a last one, by a data byte.
#[tactic(auto, unfolding(crate::specs::Samples::sample_after))]
fn sample_after(last: u16, b: u8) -> u16
    ensures { result ≡ sample_after last b }
{
    wrapping_add_u16(last, step_of(b))
}

// The one store of a sample: of data byte i, its low byte (half 0) or its high byte (half 1), at index 2 * i + half. It asks that
// the byte is the next of the list of all stores that stereo, first and data give, so that stores in another order are not
// provable: low byte before high byte, sample after sample, all of the left channel before all of the right one.
// (Ghost members of a type parameter could name the list as well, but a caller picks them by its arguments: these three again.)
#[tactic(auto, unfolding(listed::specs::Store::Within))]
fn put(room: &mut [u8], stereo: bool, first: Last, data: &[u8], i: usize, half: usize, value: u8)
    requires { NextHalf stereo first «data».now i half value room.old }
    ensures { room.new ≡ slice_set room.old (2 * i + half) value }
{
    room[2 * i + half] = value;
}

// The two bytes of the sample of data byte i. An empty room drops it.
fn put_sample(room: &mut [u8], stereo: bool, first: Last, data: &[u8], i: usize, sample: u16)
    requires { NextSample stereo first «data».now i sample room.old }
    ensures { room.new ≡ put_at (2 * i) sample room.old }
{
    if 0 < room.len() {
        put(room, stereo, first, data, i, 0, (sample % 256) as u8);
        put(room, stereo, first, data, i, 1, (sample / 256) as u8);
    }
}

// The last sample that a channel goes on from, by the first of its data bytes.
fn channel_first(first: Last, start: usize) -> u16
    ensures { result ≡ channel_first first start }
{
    if start == 0 { first.next } else { first.other }
}

// The samples of one channel: those of data[start], data[start + stride] and so on, each behind the last one. An empty room
// drops them, so that the opening call needs no loop of its own: sample_after has one caller, and the compiler puts it inside
// the loop.
fn decode_channel(stereo: bool, first: Last, data: &[u8], start: usize, room: &mut [u8]) -> u16
    requires start_bound { start < channels stereo }
    requires next_channel { NextChannel stereo first «data».now start room.old }
    ensures value { result ≡ channel_last (channel_first first start) «data».now start (channels stereo) }
    ensures room_after { room.new ≡ channel_room (channel_first first start) «data».now start (channels stereo) room.old }
{
    let stride = channels_of(stereo);
    let mut last = channel_first(first, start);
    // a `step_by` would ask in each turn whether the sum wraps
    let mut i = start;
    while i < data.len() {
        last = sample_after(last, data[i]);
        put_sample(room, stereo, first, data, i, last);
        i += stride;
    }
    last
}

// The samples of data bytes, from the last samples on; the last samples then. One channel after the other: a loop over both
// would turn them after each sample. An empty room drops them.
fn decode(stereo: bool, first: Last, data: &[u8], room: &mut [u8]) -> Last
    requires { HoldsOrNone (2 * length «data».now) (length room.old) }
    ensures value { result ≡ last_of stereo first «data».now }
    ensures room_after { room.new ≡ written (take (length room.old) (bytes_of (samples stereo first «data».now))) room.old }
{
    if !stereo {
        let only = decode_channel(stereo, first, data, 0, room);
        return Last {
            next: only,
            ..first
        };
    }
    let left = decode_channel(stereo, first, data, 0, room);
    let right = decode_channel(stereo, first, data, 1, room);
    // behind an odd number of bytes right is next: 18 refuses such packets, but the contract is for all data
    if data.len() % 2 == 0 {
        Last {
            next: left,
            other: right,
        }
    } else {
        Last {
            next: right,
            other: left,
        }
    }
}

pub fn channels_of(stereo: bool) -> usize
    ensures { result ≡ channels stereo }
{
    if stereo { 2 } else { 1 }
}

#[tactic(auto, unfolding(crate::specs::Packet::start_words))]
fn start_words(stereo: bool, last: Last, data: &[u8]) -> Last
    ensures { result ≡ start_words stereo last «data».now }
{
    let next = word_at(data, 0) as u16;
    let other = if stereo {
        word_at(data, 2) as u16
    } else {
        last.other
    };
    Last { next, other }
}

// The one store of a start word: byte i of them, when those before it are written.
#[tactic(auto, unfolding(listed::specs::Store::Within))]
fn put_start_byte(room: &mut [u8], stereo: bool, first: Last, i: usize, value: u8)
    requires { NextByte (bytes_of (first_samples stereo first)) i value room.old }
    ensures { room.new ≡ slice_set room.old i value }
{
    room[i] = value;
}

fn put_start(stereo: bool, first: Last, room: &mut [u8])
    requires { 2 * channels stereo ≤ length room.old }
    ensures { room.new ≡ written (bytes_of (first_samples stereo first)) room.old }
{
    put_start_byte(room, stereo, first, 0, (first.next % 256) as u8);
    put_start_byte(room, stereo, first, 1, (first.next / 256) as u8);
    if stereo {
        put_start_byte(room, stereo, first, 2, (first.other % 256) as u8);
        put_start_byte(room, stereo, first, 3, (first.other / 256) as u8);
    }
}

// The last samples that a packet's data goes on from: its start words, if it is a first one.
#[tactic(auto, unfolding(crate::specs::Packet::packet_first))]
fn packet_first(stereo: bool, begun: bool, last: Last, data: &[u8]) -> Last
    ensures { result ≡ packet_first stereo begun last «data».now }
{
    if begun {
        last
    } else {
        start_words(stereo, last, data)
    }
}

// The bytes of a packet's start words.
fn start_length(stereo: bool, begun: bool) -> usize
    ensures { result ≡ start_length stereo begun }
{
    if begun { 0 } else { 2 * channels_of(stereo) }
}

// A packet's start words are its first samples.
#[tactic(auto, unfolding(crate::specs::Packet::leading, crate::specs::Samples::bytes_of, room::specs::Room::written))]
fn put_leading(stereo: bool, begun: bool, first: Last, room: &mut [u8])
    requires { start_length stereo begun ≤ length room.old }
    ensures { room.new ≡ written (bytes_of (leading stereo begun first)) room.old }
{
    if !begun {
        put_start(stereo, first, room);
    }
}

// A packet's samples, as bytes at the room's front; the last samples then. An empty room drops the samples.
#[tactic(auto, unfolding(crate::specs::Packet::packet_last))]
pub fn decode_packet(stereo: bool, begun: bool, last: Last, data: &[u8], room: &mut [u8]) -> Last
    requires { FitsOrNone stereo begun (length «data».now) (length room.old) }
    ensures value { result ≡ packet_last stereo begun last «data».now }
    ensures room_after { Fits stereo begun (length «data».now) (length room.old) → room.new ≡ written (bytes_of (packet_samples stereo begun last «data».now)) room.old }
{
    let first = packet_first(stereo, begun, last, data);
    let n = start_length(stereo, begun);
    let rest = part_from(data, n);
    if room.is_empty() {
        return decode(stereo, first, rest, room);
    }
    put_leading(stereo, begun, first, room);
    decode(stereo, first, rest, &mut room[n..])
}
