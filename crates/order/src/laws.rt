ghost use Rattle.order.specs.Order.{Serializable};
ghost use Rattle.order.specs.Examples.{Examples};

// Commits of Serials that the rules allow, run alone one by one in the line's order, have the same answers, and
// leave the same. The examples have an order that is not that of the numbers, and a write skew.
pub fn serializable_stands()
    ensures theorem { Serializable }
    ensures examples { Examples }
{}
