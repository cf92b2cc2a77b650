// Reads fields with the agents add/2, S/1, Z/0, four/4, and prints each answer with the cells and names on the sheet.
#![tactic(auto)]

ghost use Rattle.std.specs.Prelude.{◌<◌};

use parts::{CellNo, NameNo};
use std::io;
use terms::Source;
use terms::sheet::Sheet;

fn number(rt: &impl Print, n: u16) -> io::Result<()> {
    print!(rt; " {n}")
}

fn agents() -> [u8; Sheet::AGENTS] {
    let mut a = [0; Sheet::AGENTS];
    a[..3].copy_from_slice(b"add");
    a[16] = 3;
    a[17] = b'S';
    a[33] = 2;
    a[34] = b'Z';
    a[50] = 1;
    a[51..55].copy_from_slice(b"four");
    a[67] = 5;
    a
}

// A cell's words: its symbol + 1, and the codes of its arguments.
fn cell(rt: &impl Print, sheet: &[u16; Sheet::SIZE], c: u16) -> io::Result<()>
    requires { c < 2048 }
{
    if c < terms::sheet::cells(sheet) {
        print!(rt; " :")?;
        number(rt, terms::sheet::symbol_word(sheet, CellNo(c)))?;
        number(rt, terms::sheet::argument(sheet, CellNo(c), 0))?;
        number(rt, terms::sheet::argument(sheet, CellNo(c), 1))?;
        number(rt, terms::sheet::argument(sheet, CellNo(c), 2))?;
        number(rt, terms::sheet::argument(sheet, CellNo(c), 3))?;
    }
    Ok(())
}

// A name's place and length.
fn name(rt: &impl Print, sheet: &[u16; Sheet::SIZE], x: u16) -> io::Result<()>
    requires { x < 2048 }
{
    if x < terms::sheet::names(sheet) {
        print!(rt; " ,")?;
        number(rt, terms::sheet::place(sheet, NameNo(x)))?;
        number(rt, terms::sheet::long(sheet, NameNo(x)))?;
    }
    Ok(())
}

// Reads a field, and prints the answer, the counts, four cells and three names.
fn show(
    rt: &impl Print,
    text: &[u8],
    from: usize,
    to: usize,
    sheet: &mut [u16; Sheet::SIZE],
) -> io::Result<()> {
    let a = agents();
    let source = Source { text, agents: &a };
    match terms::read_field(source, from, to, sheet) {
        None => print!(rt; "wrong")?,
        Some(code) => print!(rt; "code {code}")?,
    }
    number(rt, terms::sheet::cells(sheet))?;
    number(rt, terms::sheet::names(sheet))?;
    cell(rt, sheet, 0)?;
    cell(rt, sheet, 1)?;
    cell(rt, sheet, 2)?;
    cell(rt, sheet, 3)?;
    name(rt, sheet, 0)?;
    name(rt, sheet, 1)?;
    name(rt, sheet, 2)?;
    println!(rt)
}

// A text that is one field, on an empty sheet.
fn case(rt: &impl Print, text: &[u8]) -> io::Result<()> {
    let mut sheet = [0; Sheet::SIZE];
    show(rt, text, 0, text.len(), &mut sheet)
}

// Two fields of one text on one sheet.
fn fields(rt: &impl Print, text: &[u8]) -> io::Result<()> {
    let mut sheet = [0; Sheet::SIZE];
    show(rt, text, 0, 11, &mut sheet)?;
    show(rt, text, 12, 18, &mut sheet)
}

// A rule's right side: eight names stand before, the first spelled at place 0, the others not spelled.
fn right(rt: &impl Print, text: &[u8]) -> io::Result<()> {
    let mut sheet = [0; Sheet::SIZE];
    terms::sheet::enter_name(&mut sheet, NameNo(0), 0, 1);
    terms::sheet::set_names(&mut sheet, 8);
    show(rt, text, 2, text.len(), &mut sheet)
}

fn main(rt: HostRuntime) -> io::Result<()> {
    // a name
    case(&rt, b"x")?;
    // an agent without arguments
    case(&rt, b"Z")?;
    // outer before inner, left before right
    case(&rt, b"add(r,S(Z))")?;
    // names by first occurrence
    case(&rt, b"four(y,x,S(y),add(x,_z9))")?;
    // too few arguments
    case(&rt, b"add(x)")?;
    // too many
    case(&rt, b"S(x,y)")?;
    // brackets after a name
    case(&rt, b"_x(y)")?;
    // brackets after an agent of no arguments
    case(&rt, b"Z(x)")?;
    // none where one is wanted
    case(&rt, b"S")?;
    // an agent's spelling that goes on is a name
    case(&rt, b"Sx")?;
    // sixteen bytes, and seventeen
    case(&rt, b"abcdefghijklmnop")?;
    case(&rt, b"abcdefghijklmnopq")?;
    // 64 levels, and 65
    case(
        &rt,
        b"S(S(S(S(S(S(S(S(S(S(S(S(S(S(S(S(S(S(S(S(S(S(S(S(S(S(S(S(S(S(S(S(S(S(S(S(S(S(S(S(S(S(S(S(S(S(S(S(S(S(S(S(S(S(S(S(S(S(S(S(S(S(S(Z)))))))))))))))))))))))))))))))))))))))))))))))))))))))))))))))",
    )?;
    case(
        &rt,
        b"S(S(S(S(S(S(S(S(S(S(S(S(S(S(S(S(S(S(S(S(S(S(S(S(S(S(S(S(S(S(S(S(S(S(S(S(S(S(S(S(S(S(S(S(S(S(S(S(S(S(S(S(S(S(S(S(S(S(S(S(S(S(S(S(Z))))))))))))))))))))))))))))))))))))))))))))))))))))))))))))))))",
    )?;
    // nothing, and what no term is
    case(&rt, b"")?;
    case(&rt, b"add(x,y")?;
    case(&rt, b"x,y")?;
    // two fields of one text
    fields(&rt, b"add(r,S(Z))\tS(r,x)\tS")?;
    fields(&rt, b"add(r,S(Z))\tS(xyz)")?;
    // after eight names
    right(&rt, b"x\tadd(x,S(w))")
}
