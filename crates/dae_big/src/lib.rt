// The source that a number makes, on which a compiler can be tried at any size: so many functions that change one array,
// and a main that calls each once. It takes the number, and promises the text; nothing fails but for want of memory.
#![tactic(auto)]

ghost use Rattle.std.specs.Prelude.{◌≡◌, ◌≤◌, ◌++◌, decimal, length, IfOk, OnOk};
ghost use Rattle.dae_big.specs.Texts.{big_name, big_text, call_line, function_line, lines_below};

use itoa::Buffer;
use std::alloc::{AllocError, Global};

/// The name of the source's file.
pub fn big_name() -> &'static str
    ensures { result.now ≡ big_name }
{
    "big.c"
}

fn put_number(out: &mut Vec<u8>, number: u16) -> Result<(), AllocError>
    ensures { OnOk result (out.new.items ≡ out.old.items ++ decimal number) }
{
    let mut buffer = Buffer::new();
    out.extend_from_slice(buffer.format(number).as_bytes())
}

/// Appends the function of a number.
fn put_function(out: &mut Vec<u8>, number: u16) -> Result<(), AllocError>
    requires { number ≤ 900 }
    ensures { OnOk result (out.new.items ≡ out.old.items ++ function_line number) }
{
    out.extend_from_slice(b"static int f")?;
    put_number(out, number)?;
    out.extend_from_slice(b"(int x){int i;for(i=0;i<64;i++)a[i]=a[i]+x*")?;
    put_number(out, (7 * number + 3) % 11)?;
    out.extend_from_slice(b";return a[")?;
    put_number(out, number % 64)?;
    out.extend_from_slice(b"];}\n")
}

/// Appends the call of the function of a number.
fn put_call(out: &mut Vec<u8>, number: u16) -> Result<(), AllocError>
    ensures { OnOk result (out.new.items ≡ out.old.items ++ call_line number) }
{
    out.extend_from_slice(b"s=s+f")?;
    put_number(out, number)?;
    out.extend_from_slice(b"(")?;
    put_number(out, number)?;
    out.extend_from_slice(b");\n")
}

fn put_functions(out: &mut Vec<u8>, count: u16) -> Result<(), AllocError>
    requires { count ≤ 900 }
    ensures { OnOk result
        (out.new.items ≡ out.old.items ++ lines_below function_line count) }
{
    for number in 0..count {
        put_function(out, number)?;
    }
    Ok(())
}

fn put_calls(out: &mut Vec<u8>, count: u16) -> Result<(), AllocError>
    ensures { OnOk result (out.new.items ≡ out.old.items ++ lines_below call_line count) }
{
    for number in 0..count {
        put_call(out, number)?;
    }
    Ok(())
}

/// The source of a number, at most 900. It has at most 1,048,576 bytes.
///
/// # Errors
///
/// Memory is wanting.
pub fn big_source(alloc: Global, count: u16) -> Result<Vec<u8>, AllocError>
    requires { count ≤ 900 }
    ensures text { IfOk result (λ text. text.items ≡ big_text count) }
    ensures short { IfOk result (λ text. length text.items ≤ 1048576) }
{
    let mut out = Vec::from_slice(alloc, b"#include <stdio.h>\nint a[64];\n")?;
    put_functions(&mut out, count)?;
    out.extend_from_slice(b"int main(void){int s=0;\n")?;
    put_calls(&mut out, count)?;
    out.extend_from_slice(b"printf(\"%d\\n\",s);return 0;}\n")?;
    Ok(out)
}
