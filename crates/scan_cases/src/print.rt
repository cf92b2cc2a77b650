// Words and numbers of one printed line, parted by tabs.
use std::io;

pub fn start(rt: &impl Print, name: &[u8]) -> io::Result<()> {
    rt.write_all(name)
}

pub fn word(rt: &impl Print, w: &[u8]) -> io::Result<()> {
    rt.write_all(b"\t")?;
    rt.write_all(w)
}

pub fn named(rt: &impl Print, w: &[u8], n: usize) -> io::Result<()> {
    word(rt, w)?;
    print!(rt; " {n}")
}

pub fn told(rt: &impl Print, w: &[u8], yes: bool) -> io::Result<()> {
    word(rt, w)?;
    if yes {
        print!(rt; " yes")
    } else {
        print!(rt; " no")
    }
}

pub fn end(rt: &impl Print) -> io::Result<()> {
    println!(rt)
}
