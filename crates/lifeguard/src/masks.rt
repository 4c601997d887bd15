//! Masks, one for each register of each of eight harts.
ghost use Rattle.std.specs.Prelude.{◌≡◌, ◌<◌, All, find, not, ◌==◌, length, slice_set};
ghost use Rattle.pl_base.specs.declared.layout.TheConstants.{MAX_HARTS, REGISTERS};
ghost use Rattle.lifeguard.specs.State.{with_mask, clear};
ghost use Rattle.lifeguard.specs.Shadow.{masks_of};

/// The masks of eight harts, by hart and register.
pub type Masks = [[u8; 34]; 8];

/// All masks are 0.
pub fn clear_masks() -> Masks
    ensures { masks_of result ≡ clear }
{
    [[0; 34]; 8]
}

#[inline]
#[tactic(auto, unfolding(crate::specs::Shadow::masks_of))]
pub fn mask_at(masks: &Masks, hart: u8, reg: u8) -> u8
    requires hart { hart < MAX_HARTS }
    requires register { reg < REGISTERS }
    ensures { result ≡ masks_of masks.now hart reg }
{
    masks[hart as usize][reg as usize]
}

/// Register 0 keeps its mask.
#[inline]
pub fn set_mask(masks: &mut Masks, hart: u8, reg: u8, mask: u8)
    requires hart { hart < MAX_HARTS }
    requires register { reg < REGISTERS }
    ensures { masks_of masks.new ≡ with_mask hart reg mask (masks_of masks.old) }
{
    if reg != 0 {
        set_in_row(&mut masks[hart as usize], reg, mask);
    }
}

#[inline]
fn set_in_row(row: &mut [u8; 34], reg: u8, mask: u8)
    requires { reg < REGISTERS }
    ensures long { length row.old ≡ 34 }
    ensures after { row.new ≡ slice_set row.old reg mask }
{
    row[reg as usize] = mask;
}

/// The first of these registers whose mask is not 0.
#[inline]
pub fn first_marked(masks: &Masks, hart: u8, regs: &[u8]) -> Option<u32>
    requires hart { hart < MAX_HARTS }
    requires registers { All (λ register. register < REGISTERS) regs.now }
    ensures { result ≡ find (λ register. not (masks_of masks.now hart register == 0)) regs.now }
{
    for reg in regs {
        if mask_at(masks, hart, *reg) != 0 {
            return Some(u32::from(*reg));
        }
    }
    None
}
