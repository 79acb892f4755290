// A reserve over a test, where it is not too long.
use schedulability::reserve::Reserve;
use std::test::Fail;

pub(crate) fn reserved<T: Drop>(ticks: u32, test: T) -> Result<Reserve<T>, Fail> {
    Reserve::new(ticks, test).map_err(|_| Fail::new("the reserve is refused"))
}
