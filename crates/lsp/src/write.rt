// FDI and BDI, written from the path as it stands, with no TTSI.
ghost use Rattle.std.specs.Prelude.{◌≡◌};
ghost use Rattle.refusal.specs.Numbers.{number_in};
ghost use Rattle.payload.specs.Numbers.{type_of};
ghost use Rattle.lsp.specs.Steps.{write_row_of};

use crate::path::Lsp;
use payload::FunctionType;
use refusal::Refusal;

impl Lsp {
    fn write_row(self, ty: FunctionType, buf: &mut [u8]) -> Result<(), Refusal>
        ensures { (number_in result, buf.new) ≡ write_row_of (type_of ty) self buf.old }
    {
        if !self.state.defect.stands() {
            return Err(Refusal::NoDefect);
        }
        let out = self.out();
        payload::write(ty as u8, &[0; 20], 0, out.dt, out.dl, buf)
    }

    // 13 where no defect stands, 11 where fewer than 44 octets are lent, else the payload in the first 44. The paper has a call
    // for each type, and callers have both: `write_row_of` at 02 and 03.
    pub fn write_fdi(self, buf: &mut [u8]) -> Result<(), Refusal>
        ensures { (number_in result, buf.new) ≡ write_row_of 0x02 self buf.old }
    {
        self.write_row(FunctionType::Fdi, buf)
    }

    pub fn write_bdi(self, buf: &mut [u8]) -> Result<(), Refusal>
        ensures { (number_in result, buf.new) ≡ write_row_of 0x03 self buf.old }
    {
        self.write_row(FunctionType::Bdi, buf)
    }
}
