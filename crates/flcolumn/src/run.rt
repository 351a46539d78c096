//! What the program does between a source and a sink.

ghost use Rattle.std.specs.Prelude.{IfErr, OnOk};
ghost use Rattle.flcolumn.specs.Failures.{CountFailures, MayFail};
ghost use Rattle.flcolumn.specs.Runs.{Does};
ghost use Rattle.flcolumn.specs.Stops.{Stops};

mod convert;
mod get;
mod info;

use crate::failure::Failure;
use crate::streams::Streams;
use fastlanes_column_streams::Options;
use fastlanes_streams::{ByteIn, ByteOut};
use flcolumn_words::Request;
use std::alloc::Global;

impl<I: ByteIn, O: ByteOut> Streams<I, O> {
    /// Does what is asked for.
    pub fn run(&mut self, request: &Request, alloc: Global) -> Result<(), Failure>
        requires { MayFail I.failures O.failures self.old }
        ensures failures { CountFailures I.failures O.failures result self.old self.new }
        ensures does { I.tells → O.tells → OnOk result (Does request.now
            (I.source self.old.input) (I.source self.new.input) (O.sink self.old.output) (O.sink self.new.output)) }
        ensures stops { I.tells → O.tells → IfErr result (Stops request.now
            (I.source self.old.input) (I.source self.new.input) (O.sink self.old.output) (O.sink self.new.output)) }
    {
        match request {
            Request::Encode {
                element,
                frames_only,
                checked,
            } => {
                let options = Options {
                    frames_only: *frames_only,
                    checked: *checked,
                };
                self.encode(alloc, *element, options)
            }
            Request::Decode => match self.decode(alloc) {
                Ok(_) => Ok(()),
                Err(failure) => Err(failure),
            },
            Request::Info => self.info(alloc),
            Request::Get(numbers) => self.get(numbers.as_slice(), alloc),
        }
    }
}
