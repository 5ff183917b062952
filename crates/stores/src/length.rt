// How long a store may be.
ghost use Rattle.refusals.specs.Checks.{Checked};
ghost use Rattle.stores.specs.Means.{Allowed};
ghost use Rattle.stores.specs.declared.fault.StoreFault.TheVariants.{Length};

use crate::fault::StoreFault;

// 1 to 4,096 places.
pub fn check_places(places: usize) -> Result<(), StoreFault>
    ensures { Checked (Allowed places) Length result }
{
    if places < 1 || places > 4096 {
        return Err(StoreFault::Length);
    }
    Ok(())
}
