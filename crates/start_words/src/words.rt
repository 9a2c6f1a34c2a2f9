//! The words behind `start`.

ghost use Rattle.std.specs.Prelude.{◌≡◌, ◌==◌, Ok, IfOk, IfErr, map, string_bytes};
ghost use Rattle.std.specs.List.{list_any};
ghost use Rattle.start_words.specs.Options.{IsWhyRefused};
ghost use Rattle.start_words.specs.Start.{given_by, names_port, start_in};

use crate::fault::{StartFault, WordFault};
use crate::options::{Options, by_place};
use std::alloc::Global;

/// What `start ADDR CONFIG` and the words behind it give.
#[derive(Drop)]
pub struct StartWords<'w> {
    /// Where it listens.
    pub address: &'w str,
    /// The path of the registry's file.
    pub config: &'w str,
    /// The options.
    pub options: Options<'w>,
}

fn has_colon(bytes: &[u8]) -> bool
    ensures { result ≡ list_any (λ b. b == 58) bytes.now }
{
    bytes.iter().any(|byte| *byte == b':')
}

/// Whether an address names a port: it has a colon, and ends with a digit.
fn names_port(address: &str) -> bool
    ensures { result ≡ names_port address.now }
{
    let bytes = address.as_bytes();
    has_colon(bytes) && bytes[bytes.len() - 1].is_ascii_digit()
}

impl<'w> StartWords<'w> {
    /// What the words behind `start` give.
    pub fn read(alloc: Global, words: &'w [String]) -> Result<StartWords<'w>, StartFault<'w>>
        ensures done { IfOk result (λ given. start_in (map string_bytes words.now) ≡ Ok (given_by given)) }
        ensures refused { IfErr result (IsWhyRefused (start_in (map string_bytes words.now))) }
    {
        let Some((word, behind)) = by_place(words) else {
            return Err(StartFault::NoAddress);
        };
        if !names_port(word) {
            let fault = WordFault::NoPort;
            return Err(StartFault::Word { word, fault });
        }
        let Some((config, behind)) = by_place(behind) else {
            return Err(StartFault::NoConfig);
        };
        let options = Options::read(alloc, behind)?;
        Ok(StartWords {
            address: word,
            config,
            options,
        })
    }
}
