ghost use Rattle.std.specs.Prelude.{◌≡◌, [], ◌++◌, IfOk, OnOk, MatchResult, string_bytes};
ghost use Rattle.sheets.specs.Fields.{said};
ghost use Rattle.sheets.specs.Readers.{left_in};
ghost use Rattle.runs.specs.Lines.{floor_line, stop_line, whole_line};
ghost use Rattle.runs.specs.Printed.{printed, call_lines, floor_lines, preference_lines, run_lines};

use crate::lines::Line;
use crate::stop::Stop;
use floor::Floor;
use open_floor::OpenFloor;
use sheets::{Entry, Fault, Field, Layer, Reader};
use std::alloc::{AllocError, Global};

// The text that the program prints for a sheet.
pub fn report(heap: Global, sheet: &[u8]) -> Result<String, AllocError>
    ensures { IfOk result (λ text. string_bytes text ≡ printed sheet.now) }
{
    let mut out = String::new(heap);
    match Reader::new(sheet) {
        Ok(reader) => Run { reader, out }.text(),
        // A sheet without a reader has no run, whose method else writes this line.
        Err(fault) => {
            writeln!(out, "{}", Line::Stop(fault))?;
            Ok(out)
        }
    }
}

// A sheet that is carried out: what is left to read of it, and what was written for it so far.
#[derive(Drop)]
struct Run<'a> {
    reader: Reader<'a>,
    out: String,
}

impl Run<'_> {
    ghost use Rattle.runs.specs.Written.{Wrote};

    // The text of a whole run, whose last line names the fault that ends it early.
    fn text(mut self) -> Result<String, AllocError>
        ensures { IfOk result (λ text. string_bytes text ≡ string_bytes self.entry.out ++ run_lines (left_in self.entry.reader)) }
    {
        match self.carry_out() {
            Ok(()) => {}
            Err(Stop::Faulty(fault)) => self.write(Line::Stop(fault))?,
            Err(Stop::NoMemory(error)) => return Err(error),
        }
        Ok(self.out)
    }

    // Writes a line.
    fn write(&mut self, line: Line) -> Result<(), AllocError>
        ensures written { OnOk result (string_bytes self.new.out ≡ string_bytes self.old.out ++ whole_line line) }
        ensures unread { self.new.reader ≡ self.old.reader }
    {
        writeln!(self.out, "{line}")
    }

    // Carries out a sheet, up to its end or its first fault.
    fn carry_out(&mut self) -> Result<(), Stop>
        ensures { Wrote self.old self.new (run_lines (left_in self.old.reader)) result }
    {
        match self.reader.next_field()? {
            Some(first) => self.lay(first),
            None => Ok(()),
        }
    }

    // Lays the floor that the first field asks for, and carries out the fields after it.
    fn lay(&mut self, first: Entry<&[u8]>) -> Result<(), Stop>
        ensures { Wrote self.old self.new (floor_lines first.entry.place (said first.entry.field) (left_in self.old.reader)) result }
    {
        match first.field {
            Field::Open { width, height } => {
                let answer = OpenFloor::new(width, height);
                let floor = Fault::located(Layer::Floor, first.place, answer)?;
                self.carry_out_on(&floor)
            }
            Field::Drawn { .. } => self.prefer(),
            _ => Ok(()),
        }
    }

    // Carries out the fields after a floor that is laid.
    fn carry_out_on<F: Floor>(&mut self, floor: &F) -> Result<(), Stop>
        ensures { Wrote self.old self.new (floor_line (F.tiles floor.now) (F.farthest floor.now) ++ preference_lines (left_in self.old.reader)) result }
    {
        self.write(Line::Floor {
            size: floor.size(),
            reach: floor.reach(),
        })?;
        self.prefer()
    }

    // Takes the preference, and carries out the fields after it.
    fn prefer(&mut self) -> Result<(), Stop>
        ensures { Wrote self.old self.new (preference_lines (left_in self.old.reader)) result }
    {
        let Some(_entry) = self.reader.next_field()? else {
            return Ok(());
        };
        self.write(Line::Ok)?;
        self.read_calls()?;
        Ok(())
    }

    // Reads the fields for the table. Nothing is written, so that only a fault can stop it.
    fn read_calls(&mut self) -> Result<(), Fault>
        ensures lines { MatchResult result (λ _. call_lines (left_in self.old.reader) ≡ []) (λ fault. call_lines (left_in self.old.reader) ≡ stop_line fault) }
        ensures unwritten { self.new.out ≡ self.old.out }
    {
        while let Some(_entry) = self.reader.next_field()? {}
        Ok(())
    }
}
