//! Options and lists, as bytes.

ghost use Rattle.std.specs.Prelude.{◌≡◌, map, OnOk, IsErrOf, Option, List};
ghost use Rattle.std.specs.List.{AllByRecursion};
ghost use Rattle.wire.specs.declared.fault.EncodeFault.TheVariants.{TooLong};
ghost use Rattle.wire.specs.Reading.{Reads};
ghost use Rattle.wire.specs.Lists.{each_at, each_onto, option_of, list_of};
ghost use Rattle.std.specs.Option.{option_map};

use crate::fault::{DecodeFault, EncodeFault, Fault};
use crate::reader::Reader;
use crate::wire::{FromWire, Wire};

impl<T: Wire> Wire for Option<T> {
    ghost Value = { Option T.Value };

    ghost value = { option_map T.value };

    ghost format = { option_of T.format };

    fn put(&self, out: &mut Vec<u8>) -> Result<(), EncodeFault> {
        match self {
            None => {
                out.push(0)?;
                Ok(())
            }
            Some(value) => {
                out.push(1)?;
                value.put(out)
            }
        }
    }
}

impl<'a, T: FromWire<'a>> FromWire<'a> for Option<T> {
    fn from_wire(from: &mut Reader<'a>) -> Result<Option<T>, DecodeFault> {
        match from.byte()? {
            0 => Ok(None),
            1 => Ok(Some(T::from_wire(from)?)),
            _ => Err(DecodeFault::Bytes(Fault::Variant)),
        }
    }
}

/// Writes each of them behind what `out` holds.
fn put_each<T: Wire>(items: &[T], out: &mut Vec<u8>) -> Result<(), EncodeFault>
    ensures written { OnOk result (out.new.items ≡ each_onto T.format out.old.items (map T.value items.now)) }
    ensures fits { OnOk result (AllByRecursion T.format.Fits (map T.value items.now)) }
    ensures too_long { IsErrOf result TooLong → ¬ (AllByRecursion T.format.Counts (map T.value items.now)) }
{
    for item in items {
        match item.put(out) {
            Ok(()) => {}
            Err(fault) => return Err(fault),
        }
    }
    Ok(())
}

/// Takes so many from the front, or gives the first fault.
fn take_each<'a, T: FromWire<'a> + Drop>(
    from: &mut Reader<'a>,
    count: u32,
) -> Result<Vec<T>, DecodeFault>
    ensures { Reads (λ items. map T.value items.items) result from.new (each_at T.format count from.old) }
{
    let mut items = Vec::new(from.alloc());
    for _ in 0..count {
        match T::from_wire(from) {
            Ok(item) => items.push(item)?,
            Err(fault) => return Err(fault),
        }
    }
    Ok(items)
}

impl<T: Wire> Wire for Vec<T> {
    ghost Value = { List T.Value };

    ghost value = { λ items. map T.value items.items };

    ghost format = { list_of T.format };

    fn put(&self, out: &mut Vec<u8>) -> Result<(), EncodeFault> {
        if self.len() >= 1 << 32 {
            return Err(EncodeFault::TooLong);
        }
        (self.len() as u32).put(out)?;
        put_each(self.as_slice(), out)
    }
}

impl<'a, T: FromWire<'a> + Drop> FromWire<'a> for Vec<T> {
    fn from_wire(from: &mut Reader<'a>) -> Result<Vec<T>, DecodeFault> {
        let count = u32::from_wire(from)?;
        take_each(from, count)
    }
}
