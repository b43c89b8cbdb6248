//! A law of the definitions. It is the contract of a function without parameters whose body does nothing.

ghost use Rattle.test_order.specs.Orders.{OrderIsDetermined};

/// An order is determined: two lists of places that are both orders of the same entries and choices are equal.
pub fn order_is_determined()
    ensures { OrderIsDetermined }
{}
