// The form of a table (R411).
ghost use Rattle.std.specs.Prelude.{◌≡◌};
ghost use Rattle.captions.specs.Form.{table_refusal};

use table_form::table_refusal;

// The form of a table: 0, or 7 where begin would find it wrong.
#[unsafe(no_mangle)]
pub extern "C" fn ligkern_check_table(pairs: &[i32], ops: &[i32]) -> u32
    ensures { result ≡ table_refusal pairs.now ops.now }
{
    table_refusal(pairs, ops)
}
