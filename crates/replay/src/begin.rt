// The station of a list, and the line of a Start: its numbers, its slice, the lengths of the channels, and the fresh memory that it begins on.
use crate::fault::Fault;
use crate::text::{MOST_OCTETS, number_of, read_octets};
use std::alloc::{AllocError, Global};
use std::mem::swap;

// The most octets of a memory.
const MOST_MEMORY: usize = 16384;

// The memory that the calls get, and what a Start is made of. All room is taken before the first line, so that no line asks for more.
#[derive(Drop)]
pub struct Station {
    pub memory: Vec<u8>,
    fresh: Vec<u8>,
    slice: Vec<u8>,
    channels: Vec<u8>,
}

impl Station {
    // With an empty memory.
    pub fn new(alloc: Global) -> Result<Station, AllocError> {
        Ok(Station {
            memory: Vec::with_capacity(alloc, MOST_MEMORY)?,
            fresh: Vec::with_capacity(alloc, MOST_MEMORY)?,
            slice: Vec::with_capacity(alloc, MOST_OCTETS)?,
            channels: Vec::with_capacity(alloc, MOST_OCTETS)?,
        })
    }

    // A Start that is accepted puts a fresh memory in place of the old; any other leaves it.
    pub fn begin(&mut self, words: &[&[u8]]) -> Result<i64, Fault> {
        let [
            size,
            address,
            ident,
            outputs,
            inputs,
            parameters,
            configuration,
            diagnosis,
            slice,
            channels,
        ] = words
        else {
            return Err(Fault::NoCall);
        };
        let size = number_of(size)? as usize;
        if MOST_MEMORY < size {
            return Err(Fault::NoCall);
        }
        read_octets(slice, &mut self.slice)?;
        read_octets(channels, &mut self.channels)?;
        self.fresh.clear();
        self.fresh.resize(size, 0)?;
        let answer = card::dp_start(
            &mut self.fresh,
            number_of(address)?,
            u16::try_from(number_of(ident)?)?,
            number_of(outputs)?,
            number_of(inputs)?,
            number_of(parameters)?,
            number_of(configuration)?,
            number_of(diagnosis)?,
            &self.slice,
            &self.channels,
        );
        if answer == 0 {
            swap(&mut self.memory, &mut self.fresh);
        }
        Ok(answer)
    }
}
