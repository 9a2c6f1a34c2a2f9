//! The registers.

ghost use Rattle.std.specs.Prelude.{◌≡◌, [], None, Some, false, if◌then◌else◌};
ghost use Rattle.insn.specs.Values.{entry, set_register, value_of};

use insn::register::RegNo;
use insn::state::{Pointer, Region, STACK_SIZE, Value};
use std::marker::Model;

/// The eleven registers.
#[derive(Drop)]
pub struct Registers {
    values: [Option<Value>; 11],
}

impl Model for Registers {
    ghost use Rattle.std.specs.Prelude.{List, Option};
    ghost use Rattle.insn.specs.declared.state.Value.{Value as Content};

    ghost Value = { List (Option Content) };

    ghost view = { λ r. r.values };
}

impl Registers {
    /// The registers at a program's entry: R1 points to the record's first byte, R10 one past the stack's last, and
    /// the others are unset.
    pub fn new() -> Registers
        ensures { result ≡ (entry []).registers }
    {
        let mut values = [None; 11];
        values[1] = Some(Value::Address(Pointer {
            region: Region::Record,
            offset: 0,
        }));
        values[10] = Some(Value::Address(Pointer {
            region: Region::Stack,
            offset: STACK_SIZE as u16,
        }));
        Registers { values }
    }

    /// What a register holds.
    pub fn get(&self, register: RegNo) -> Option<Value>
        ensures { result ≡ value_of self.now register }
    {
        self.values[register.number()]
    }

    /// Sets a register, but R10. Says whether it did.
    pub fn set(&mut self, register: RegNo, value: Value) -> bool
        ensures set { set_register self.old register value ≡ (if result then Some self.new else None) }
        ensures refused { result ≡ false → self.new ≡ self.old }
    {
        if register.number() > 9 {
            return false;
        }
        self.values[register.number()] = Some(value);
        true
    }
}
