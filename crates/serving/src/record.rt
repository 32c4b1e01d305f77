//! The record of a service: a schedule of version 2, of its header and the line of each answer.
ghost use Rattle.std.specs.Prelude.{◌≡◌, Err, IsTrue, OnOk, OnErr, true};
ghost use Rattle.std.specs.Io.KnownBytes.{Appends};
ghost use Rattle.tree_specs.specs.declared.schedule.Version.TheVariants.{Two};
ghost use Rattle.tree_specs.specs.Texts.Text.{input_text};
ghost use Rattle.tree_specs.specs.Words.Ranges.{is_sound};
ghost use Rattle.outside.specs.Causes.{Counts};
ghost use Rattle.outside.specs.Outputs.{PutsFront};
ghost use Rattle.service_records.specs.Records.{has_ranges, record_header};

use crate::stop::Stop;
use outside::{Sink, put_all};
use schedule_text::{write_header, write_input};
use std::alloc::Global;
use tree_specs::{Header, Input, Mode, Version};

/// Puts the header of the record.
pub(crate) fn put_header<K: Sink>(alloc: Global, out: &mut K) -> Result<(), Stop>
    ensures put { OnOk result (Appends (K.held out.old) (K.held out.new) record_header) }
    ensures front { OnErr result (PutsFront (K.held out.old) (K.held out.new) record_header) }
    ensures cause { Counts (K.faults out.old) (K.faults out.new) (result ≡ Err Stop.Write) }
    ensures no_link { result ≡ Err Stop.Link → ⊥ }
{
    let header = Header {
        version: Version::Two,
        mode: Mode::Service,
    };
    let mut text = Vec::new(alloc);
    write_header(header, &mut text)?;
    put_all(out, &text)?;
    Ok(())
}

/// Puts an answer on record, as its line.
pub(crate) fn put_input<K: Sink>(alloc: Global, input: &Input, out: &mut K) -> Result<(), Stop>
    requires { IsTrue (is_sound input.now) }
    ensures put { OnOk result (Appends (K.held out.old) (K.held out.new) (input_text Two input.now)) }
    ensures ranges { has_ranges input.now ≡ true }
    ensures front { OnErr result (PutsFront (K.held out.old) (K.held out.new) (input_text Two input.now)) }
    ensures cause { Counts (K.faults out.old) (K.faults out.new) (result ≡ Err Stop.Write) }
    ensures no_link { result ≡ Err Stop.Link → ⊥ }
{
    let mut text = Vec::new(alloc);
    write_input(input, &mut text)?;
    put_all(out, &text)?;
    Ok(())
}
