// Single wirings of two functions of three inputs, with q = 0: whether one agrees, or its first dead pair.
use partial::Wiring;
use std::io;
use std::io::Write;

// Shows the choices made.
fn choices<W: Write>(to: &mut W, w: Wiring) -> io::Result<()> {
    for i in 0..w.masks.depth {
        if i != 0 {
            show::text(to, b" ")?;
        }
        show::byte(to, w.locate(i))?;
    }
    Ok(())
}

// Shows that a wiring agrees, or its first dead pair.
fn tell<W: Write>(to: &mut W, w: Wiring, f: &[u8], g: &[u8]) -> io::Result<()> {
    let both = match records::both(f, g) {
        Ok(both) => both,
        Err(_) => return Ok(()),
    };
    match w.first_dead(both.f, both.g, 0) {
        Some(pair) => {
            show::text(to, b"dead pair ")?;
            show::three(to, pair.s as u64, pair.u as u64, pair.v as u64)
        }
        None => show::text(to, b"agrees"),
    }
}

// The wiring with these choices.
pub fn one<W: Write>(
    to: &mut W,
    name: &[u8],
    f: &[u8],
    g: &[u8],
    bytes: &[u8; 3],
) -> io::Result<()> {
    let w = match checker::wire(3, bytes, 0) {
        Ok(w) => w,
        Err(unwired) => unwired.before,
    };
    show::text(to, name)?;
    show::text(to, b", ")?;
    choices(to, w)?;
    show::text(to, b" with q 0: ")?;
    tell(to, w, f, g)?;
    show::text(to, b"\n")
}

// The wirings that invert no input.
pub fn plain<W: Write>(to: &mut W, name: &[u8], f: &[u8], g: &[u8]) -> io::Result<()> {
    one(to, name, f, g, b"\x00\x01\x02")?;
    one(to, name, f, g, b"\x00\x02\x01")?;
    one(to, name, f, g, b"\x01\x00\x02")?;
    one(to, name, f, g, b"\x01\x02\x00")?;
    one(to, name, f, g, b"\x02\x00\x01")?;
    one(to, name, f, g, b"\x02\x01\x00")
}
