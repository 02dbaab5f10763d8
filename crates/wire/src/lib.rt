//! How numbers and bytes go together: a big-endian field read from a slice, and signed figures written into a lent buffer.
#![tactic(auto)]

ghost use Rattle.std.specs.Prelude.{◌≡◌, ◌+◌, ◌*◌, ◌≤◌, length, take, drop};
ghost use Rattle.std.proofs.lemmas.List.Edits.{sets};
ghost use Rattle.wire.specs.Bytes.{field_at};
ghost use Rattle.wire.specs.Signed.{figure_bytes, figures_bytes};

// A place stands beside the slice, since what is written is said of the whole buffer: the bytes before it and after keep their content.

/// The field of 64 bits at a place.
pub fn field64(bytes: &[u8], at: usize) -> u64
    requires { at + 8 ≤ length bytes.now }
    ensures { result ≡ field_at 8 bytes.now at }
{
    let mut field = [0; 8];
    field.copy_from_slice(&bytes[at..at + 8]);
    u64::from_be_bytes(field)
}

/// Writes figures one after the other from a place on, eight bytes each.
pub fn put_figures(buffer: &mut [u8], at: usize, figures: &[i64])
    requires { at + 8 * length figures.now ≤ length buffer.old }
    ensures { buffer.new ≡ sets buffer.old at (figures_bytes figures.now) }
{
    for (k, figure) in figures.iter().enumerate() {
        let place = at + 8 * k;
        buffer[place..place + 8].copy_from_slice(&figure.to_be_bytes());
    }
}

/// Writes one figure from a place on.
pub fn put_figure(buffer: &mut [u8], at: usize, figure: i64)
    requires { at + 8 ≤ length buffer.old }
    ensures { buffer.new ≡ sets buffer.old at (figure_bytes figure) }
{
    put_figures(buffer, at, &[figure]);
}
