// A name's cells.
ghost use Rattle.std.specs.Prelude.{◌≡◌};
ghost use Rattle.language.specs.Table.{name_at};
ghost use Rattle.table.specs.Named.{NameWithin};

// The name whose length is cell k, a part of the table. A length may say up to 255, so that many cells stand behind it.
pub fn name_at(t: &[u8], k: usize) -> &[u8]
    requires { NameWithin t.now k }
    ensures { result.now ≡ name_at t.now k }
{
    let n = usize::from(t[k]);
    let b = k + 1;
    let e = b + n;
    &t[b..e]
}
