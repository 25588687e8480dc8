// The whole translation.
ghost use Rattle.std.specs.Prelude.{◌≡◌, [], ◌∷◌};
ghost use Rattle.language.specs.Answers.{zeros};
ghost use Rattle.language.specs.Table.{cells, decode_function, table_length};
ghost use Rattle.language.specs.Translating.{translation};
ghost use Rattle.flow.specs.Prepared.{Prepared};
ghost use Rattle.translator.specs.Source.{TranslatableAt};

use crate::edges::put_all_edges;
use crate::kept::keep_blocks;
use crate::registers::{keep_registers, put_all_new, put_head};
use crate::sizes::{measure, plan_edges};
use predecessors::put_predecessors;
use table::FIRST_FUNCTION;

// "The translation is a table of that function alone": of the function at a, to a table that is all zero.
pub fn translate_into(t: &[u8], a: usize, m: &[u16], out: &mut [u8])
    requires translatable_at { TranslatableAt t.now a }
    requires prepared { Prepared (decode_function t.now a) m.now }
    requires out_value { out.old ≡ zeros table_length }
    ensures { out.new ≡ cells (translation (decode_function t.now a) ∷ []) }
{
    let mut plan = [0u16; 64];
    plan_edges(t, a, m, &mut plan);
    let s = measure(t, a, m);
    put_head(t, a, s.registers, s.blocks, out);
    keep_registers(t, a, out);
    put_all_new(t, a, m, out);
    let k = keep_blocks(t, a, m, &plan, out);
    put_all_edges(t, a, m, out, k);
    put_predecessors(out, FIRST_FUNCTION);
}
