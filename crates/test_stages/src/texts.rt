//! Planning tasks with the costs of their cheapest plans.

/// A step moves along a road, at cost 1.
pub(crate) const ROAD_DOMAIN: &str = "(define (domain road)
 (:requirements :typing)
 (:types loc)
 (:predicates (at ?x - loc) (road ?x ?y - loc))
 (:action go :parameters (?x ?y - loc)
  :precondition (and (at ?x) (road ?x ?y))
  :effect (and (not (at ?x)) (at ?y))))
";

/// From a over b to c.
pub(crate) const ROAD_PROBLEM: &str = "(define (problem r1) (:domain road)
 (:objects a b c - loc)
 (:init (at a) (road a b) (road b c))
 (:goal (at c)))
";

/// The roads without the one from b to c.
pub(crate) const ROAD_PROBLEM_WITHOUT_WAY: &str = "(define (problem r1) (:domain road)
 (:objects a b c - loc)
 (:init (at a) (road a b))
 (:goal (at c)))
";

/// A step moves along a road, at the cost of the road's length.
pub(crate) const DRIVE_DOMAIN: &str = "(define (domain drive)
 (:requirements :typing)
 (:types loc)
 (:predicates (at ?x - loc) (road ?x ?y - loc))
 (:functions (total-cost) - number (len ?x ?y - loc) - number)
 (:action go :parameters (?x ?y - loc)
  :precondition (and (at ?x) (road ?x ?y))
  :effect (and (not (at ?x)) (at ?y) (increase (total-cost) (len ?x ?y)))))
";

/// From a to c, over b or directly.
pub(crate) const DRIVE_PROBLEM: &str = "(define (problem d1) (:domain drive)
 (:objects a b c - loc)
 (:init (at a) (road a b) (road b c) (road a c)
  (= (len a b) 3) (= (len b c) 4) (= (len a c) 8))
 (:goal (at c)) (:metric minimize (total-cost)))
";

/// Balls are picked up and dropped in two rooms.
pub(crate) const GRIP_DOMAIN: &str = "(define (domain grip)
 (:predicates (room ?r) (ball ?b) (here ?r) (in ?b ?r) (free) (held ?b))
 (:action move :parameters (?f ?t)
  :precondition (and (room ?f) (room ?t) (here ?f) (not (= ?f ?t)))
  :effect (and (here ?t) (not (here ?f))))
 (:action pick :parameters (?b ?r)
  :precondition (and (ball ?b) (room ?r) (here ?r) (in ?b ?r) (free))
  :effect (and (held ?b) (not (in ?b ?r)) (not (free))))
 (:action drop :parameters (?b ?r)
  :precondition (and (ball ?b) (room ?r) (here ?r) (held ?b))
  :effect (and (in ?b ?r) (free) (not (held ?b)))))
";

/// Two balls that are to be carried from p to q.
pub(crate) const GRIP_PROBLEM: &str = "(define (problem g1) (:domain grip) (:objects p q x y)
 (:init (room p) (room q) (ball x) (ball y) (here p) (in x p) (in y p) (free))
 (:goal (and (in x q) (in y q))))
";
