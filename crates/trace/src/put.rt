// Bytes appended to a vector; without memory, the first of them.
ghost use Rattle.std.specs.Prelude.{◌++◌, decimal};
ghost use Rattle.trace.specs.Appends.{Appends};

use std::alloc::AllocError;

pub fn put(out: &mut Vec<u8>, bytes: &[u8]) -> Result<(), AllocError>
    ensures { Appends bytes.now out.old.items result out.new.items }
{
    out.extend_from_slice(bytes)
}

pub fn put_decimal(out: &mut Vec<u8>, n: u64) -> Result<(), AllocError>
    ensures { Appends (decimal n) out.old.items result out.new.items }
{
    if n < 10 {
        return put(out, &[b'0' + n as u8]);
    }
    put_decimal(out, n / 10)?;
    put(out, &[b'0' + (n % 10) as u8])
}

pub fn put_numbered(out: &mut Vec<u8>, name: &[u8], n: u64) -> Result<(), AllocError>
    ensures { Appends (name.now ++ decimal n) out.old.items result out.new.items }
{
    put(out, name)?;
    put_decimal(out, n)
}

pub fn put_two(
    out: &mut Vec<u8>,
    first: &[u8],
    m: u64,
    second: &[u8],
    n: u64,
) -> Result<(), AllocError>
    ensures { Appends ((first.now ++ decimal m) ++ (second.now ++ decimal n)) out.old.items result out.new.items }
{
    put_numbered(out, first, m)?;
    put_numbered(out, second, n)
}
