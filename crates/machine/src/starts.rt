// What a run starts from: arguments that fit, and registers that hold them.
ghost use Rattle.std.specs.Prelude.{◌≡◌, ◌++◌, ◌-◌, ◌<◌, ◌≤◌, length, replicate, IfSome};
ghost use Rattle.std.specs.Option.{unwrap_or};
ghost use Rattle.language.specs.Table.{register_count, decode_function, InTable};
ghost use Rattle.language.specs.Running.{first_unfit};
ghost use Rattle.language.specs.Programs.{max_registers};

use instructions::number_fits;
use table::register_type;

// The first argument not below 2^w: the place of 20.
pub fn first_unfit(t: &[u8], a: usize, args: &[u64]) -> Option<usize>
    requires in_table { (InTable t.now a) × (register_count t.now a ≤ max_registers) }
    requires args_len_bound { length args.now ≤ register_count t.now a }
    ensures place { unwrap_or result (length args.now) ≡ first_unfit (decode_function t.now a) args.now }
    ensures within { IfSome result (λ i. i < length args.now) }
{
    for (i, &arg) in args.iter().enumerate() {
        if !number_fits(arg, register_type(t, a, i)) {
            return Some(i);
        }
    }
    None
}

// The arguments, and 0 in every cell past them: "Registers that aren't parameters start at 0."
pub fn start(args: &[u64], registers: &mut [u64])
    requires { length args.now ≤ length registers.old }
    ensures { registers.new ≡ args.now ++ replicate (length registers.old - length args.now) 0 }
{
    // Kept, rule: a loop and not `copy_from_slice`, as in `numbers::put_bytes`.
    for i in 0..args.len() {
        registers[i] = args[i];
    }
    for i in args.len()..registers.len() {
        registers[i] = 0;
    }
}
