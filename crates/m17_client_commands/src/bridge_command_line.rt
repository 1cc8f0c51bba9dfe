ghost use Rattle.std.specs.Prelude.{◌≡◌};
ghost use Rattle.m17_client_commands.specs.Bridged.{bridge_line};

use m17_client::BridgeEnd;
use m17_print::Line;

// The line of a bridge.
pub(crate) fn make_bridge_line(line: &mut Line, end: &BridgeEnd)
    ensures { line.new ≡ bridge_line end.now }
{
    line.clear();
    line.push_text("bridged near ");
    line.push_number(end.near);
    line.push_text(" far ");
    line.push_number(end.far);
    line.push_byte(b'\n');
}
