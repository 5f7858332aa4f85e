//! The setup of a drill.

ghost use Rattle.std.specs.Prelude.{◌≡◌, ◌≤◌, ◌<◌, ◌+◌, ◌*◌, ◌%◌, ◌^◌, IfOk, All, length};
ghost use Rattle.lf_model.specs.Promise.NeverStops.{NeverTwoTurned};
ghost use Rattle.lf_model.specs.Start.{IsLoadable};
ghost use Rattle.lf_model.specs.declared.trace.Trace.{Trace};
ghost use Rattle.run_texts.specs.Keys.{IsOfTable};
ghost use Rattle.run_texts.specs.FlipLine.{IsOfMachine};
ghost use Rattle.work_gen.specs.Layout.{data_end};
ghost use Rattle.work_gen.specs.Drill.{core_of, step_of, way_of, set_of, byte_of, bit_of, memory_flip, line_flip, tag_flip, flip_of, drill_flips, drill_shape, drill_config, generated_setup, IsCorrectable};

use crate::draws::Draws;
use crate::image::{data_end, make};
use lf_model::addresses::RAM_FIRST;
use lf_model::config::{Config, Shape, Words};
use lf_model::flip::{Flip, Flips};
use lf_model::image::Range;
use lf_model::setup::Setup;
use std::alloc::{AllocError, Global};

/// The shape of both caches.
const SHAPE: Shape = Shape { ways: 2, sets: 16 };

/// The flip of the memory word with this number in RAM.
fn memory_flip(i: u32, draw: u32) -> Flip
    requires { i < 65536 }
    ensures { result ≡ memory_flip i draw }
{
    Flip::Mem {
        turn: draw % 2000,
        addr: RAM_FIRST + 4 * i,
        bit: (draw / 2048 % 39) as u8,
    }
}

/// A byte of a line in a slot of a cache, which `draw / 32768` gives.
fn byte_of(draw: u32) -> u8
    ensures value { result ≡ byte_of draw }
{
    (draw / 32768 % 32) as u8
}

/// A bit of a byte and its check bit.
fn bit_of(draw: u32) -> u8
    ensures { result ≡ bit_of draw }
{
    ((draw >> 20) % 9) as u8
}

/// The flip of a line byte of the fetch or the load cache.
fn line_flip(fetch: bool, size: u32, draw: u32) -> Flip
    requires { 0 < size }
    ensures { result ≡ line_flip fetch size draw }
{
    Flip::Line {
        core: draw % 4,
        step: draw / 4 % size,
        fetch,
        way: (draw / 1024 % 2) as u8,
        set: (draw / 2048 % 16) as u16,
        byte: byte_of(draw),
        bit: bit_of(draw),
    }
}

/// The flip of a tag byte of the load cache.
fn tag_flip(size: u32, draw: u32) -> Flip
    requires { 0 < size }
    ensures { result ≡ tag_flip size draw }
{
    Flip::Tag {
        core: draw % 4,
        step: draw / 4 % size,
        fetch: false,
        way: (draw / 1024 % 2) as u8,
        set: (draw / 2048 % 16) as u16,
        byte: byte_of(draw) % 4,
        bit: bit_of(draw),
    }
}

/// The flip with this number.
fn flip_of(size: u32, i: u32, draw: u32) -> Flip
    requires size { 0 < size }
    requires number { i < 65536 }
    ensures { result ≡ flip_of size i draw }
{
    match i % 4 {
        0 => memory_flip(i, draw),
        1 => line_flip(true, size, draw),
        2 => line_flip(false, size, draw),
        _ => tag_flip(size, draw),
    }
}

/// The script of a drill, in memory that is reserved before.
fn flips_of(alloc: Global, start: u64, size: u32, count: u32) -> Result<Flips, AllocError>
    requires size { 0 < size }
    requires count { count ≤ 65536 }
    ensures { IfOk result (λ flips. flips ≡ drill_flips start size count) }
{
    let mut flips = Vec::with_capacity(alloc, count as usize)?;
    let mut draws = Draws::new(start.wrapping_add(1));
    for i in 0..count {
        flips.push(flip_of(size, i, draws.draw()))?;
    }
    Ok(Flips::from_vec(flips))
}

/// The machine of a drill.
fn config_of(alloc: Global, size: u32) -> Config
    requires { size ≤ 100000 }
    ensures { result ≡ drill_config size }
{
    Config {
        cores: 4,
        ram: 1_048_576,
        steps: 8 * size + 1000,
        window: 64,
        buffer: 4,
        fetch_cache: SHAPE,
        load_cache: SHAPE,
        scrub: Range {
            first: RAM_FIRST,
            length: data_end(size) - RAM_FIRST,
        },
        scrub_turns: 1000,
        watch: Words::new(alloc),
    }
}

/// The setup of a drill: the image of `make`, a machine of four cores, and a script of `flips` pseudo-random flips, at most `size` and
/// at most 65,536.
///
/// # Errors
///
/// Memory ran out.
pub fn make_setup(alloc: Global, start: u64, size: u32, flips: u32) -> Result<Setup, AllocError>
    requires least { 16 ≤ size }
    requires most { size ≤ 100000 }
    requires flips_below_size { flips ≤ size }
    requires flips_few { flips ≤ 65536 }
    ensures setup { IfOk result (λ setup. setup ≡ generated_setup start size flips) }

    // It can be played: its configuration, image and flips are as those that files spell for a machine.
    ensures of_table { IfOk result (λ setup. IsOfTable setup.config) }
    ensures loadable { IfOk result (λ setup. IsLoadable setup.config.ram setup.image) }
    ensures count { IfOk result (λ setup. length setup.flips ≡ flips) }
    ensures of_machine { IfOk result (λ setup. All (IsOfMachine setup.config) setup.flips) }

    // No two flips strike the same memory word, and none a register. So no word and no register has two flipped bits, in whatever run.
    ensures correctable { IfOk result (λ setup. IsCorrectable setup.flips) }
    ensures never_two_flipped { IfOk result (λ setup. (trace : Trace) → NeverTwoTurned setup trace) }
{
    let image = make(alloc, start, size)?;
    let flips = flips_of(alloc, start, size, flips)?;
    Ok(Setup {
        image,
        config: config_of(alloc, size),
        flips,
    })
}
