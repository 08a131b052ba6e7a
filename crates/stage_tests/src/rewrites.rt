//! What each rule makes of a typed pipeline at its first place, and the plan that one rewrite after another leads to. The expected
//! pipelines come from the rules and from a program that was written apart from this one.
ghost use Rattle.std.specs.Prelude.{IfOk, IsTrue};
ghost use Rattle.edm_model.specs.LookUps.{IsSet};
ghost use Rattle.context_typing.specs.Answers.{IsTyping};
ghost use Rattle.context_typing.specs.Readings.{readings, AreTypedOver};
ghost use Rattle.context_typing.specs.Typing.{customs_typed};

use crate::runs::typed_customs;
use apply_ast::print;
use apply_grammar::read_request;
use context_typing::{Customs, Typed, type_pipe};
use edm_model::{Model, read_model};
use optimiser::{next_rewrite, optimise};
use rewrite_places::{
    rule_1, rule_2, rule_3, rule_4, rule_5, rule_6, rule_7, rule_8, rule_9, rule_10, rule_11,
    rule_12, rule_13, rule_14, rule_15, rule_16, rule_17, rule_18,
};
use std::alloc::Global;
use std::process::Abort;
use std::test::Fail;
use test_support::samples::{SAMPLE, STOCK};

/// Rules by their numbers, each with a request and what the rule makes of its pipeline at the first place; nothing stands behind the
/// arrow where it applies at no place.
const RULES: &str = r"
// identity is dropped beside another step.
1 Sales?$apply=identity/filter(ID eq 1)/identity => filter(ID eq 1)/identity
1 Sales?$apply=filter(ID eq 1)/identity => filter(ID eq 1)
1 Sales?$apply=groupby((OrgID),identity/aggregate($count as N)) => groupby((OrgID),aggregate($count as N))
1 Sales?$apply=concat(identity,top(1)/identity) => concat(identity,top(1))
1 Sales?$apply=concat(top(1)/identity,top(2))/identity => concat(top(1),top(2))/identity
1 Sales?$apply=identity/concat(top(1)/identity,top(2)) => concat(top(1)/identity,top(2))
1 Sales?$apply=identity =>
1 Sales?$apply=concat(identity,identity) =>
// A conjunction is split where its second operand is sure.
2 Sales?$apply=filter(ID eq 1 and Amount gt 2) => filter(ID eq 1)/filter(Amount gt 2)
2 Sales?$apply=filter(ID eq 1 and ID eq 2 and ID eq 3) => filter(ID eq 1 and ID eq 2)/filter(ID eq 3)
2 Sales?$apply=filter(ID eq 1 and (ID eq 2 and ID eq 3)) => filter(ID eq 1)/filter(ID eq 2 and ID eq 3)
2 Sales?$apply=filter(ID add 1 gt 2 and ID eq 1) => filter(ID add 1 gt 2)/filter(ID eq 1)
2 Sales?$apply=compute(Amount as X)/filter(ID eq 1 and X gt 2) => compute(Amount as X)/filter(ID eq 1)/filter(X gt 2)
2 Sales?$apply=filter(ID eq 1 and -Amount lt 0) => filter(ID eq 1)/filter(-Amount lt 0)
2 Customers?$apply=join(Sales as S,filter(ID eq 1 and Amount gt 2)) => join(Sales as S,filter(ID eq 1)/filter(Amount gt 2))
2 Sales?$apply=filter(ID eq 1 and ID add 1 gt 2)/filter(ID add 1 gt 2 and ID eq 1) => filter(ID eq 1 and ID add 1 gt 2)/filter(ID add 1 gt 2)/filter(ID eq 1)
2 Sales?$apply=filter(ID eq 1 and ID add 1 gt 2) =>
2 Sales?$apply=compute(Amount add 1 as X)/filter(ID eq 1 and X gt 2) =>
2 Sales?$apply=filter(ID eq 1 and -ID lt 0) =>
2 Sales?$apply=filter(ID eq 1 or ID eq 2)/filter(not (ID eq 1 and ID eq 2)) =>
// A filter by `true` becomes identity.
3 Sales?$apply=filter(true)/top(2) => identity/top(2)
3 Sales?$apply=filter(true) => identity
3 Sales?$apply=groupby((rolluprecursive($root/Orgs,OrgTree,OrgID,filter(true))),aggregate($count as N)) => groupby((rolluprecursive($root/Orgs,OrgTree,OrgID,identity)),aggregate($count as N))
3 Sales?$apply=groupby((rolluprecursive($root/Orgs,OrgTree,OrgID,filter(true)),CustomerID),filter(true)/aggregate($count as N)) => groupby((rolluprecursive($root/Orgs,OrgTree,OrgID,identity),CustomerID),filter(true)/aggregate($count as N))
3 Sales?$apply=filter(false)/filter(true) => filter(false)/identity
3 Sales?$apply=filter(not false)/filter(true and true)/filter(true eq true) =>
// A filter passes a computation that makes no name of it.
4 Sales?$apply=compute(Amount add 1 as X)/filter(ID eq 1) => filter(ID eq 1)/compute(Amount add 1 as X)
4 Sales?$apply=compute(Amount as X)/filter(ID add 1 gt 2) => filter(ID add 1 gt 2)/compute(Amount as X)
4 Sales?$apply=compute(Amount as X)/filter(X gt 2)/filter(ID eq 1)/filter(ID eq 2) => filter(ID eq 1)/compute(Amount as X)/filter(X gt 2)/filter(ID eq 2)
4 Sales?$apply=compute(1 as X,2 as Y)/filter(Customer/Country eq 'US') => filter(Customer/Country eq 'US')/compute(1 as X,2 as Y)
4 Sales?$apply=descendants($root/Orgs,OrgTree,OrgID,compute(ID add 1 as X)/filter(OrgID eq 'US')) => descendants($root/Orgs,OrgTree,OrgID,filter(OrgID eq 'US')/compute(ID add 1 as X))
4 Sales?$apply=compute(Amount as X)/filter(X gt 2)/compute(ID as Y)/filter(X gt 3) => compute(Amount as X)/filter(X gt 2)/filter(X gt 3)/compute(ID as Y)
4 Sales?$apply=compute(Amount add 1 as X)/filter(X gt 2)/filter(ID eq 1) =>
4 Sales?$apply=compute(Amount as X)/filter(X gt 2)/filter(ID add 1 gt 2) =>
4 Sales?$apply=compute(1 as X,2 as Y)/filter(ID eq 1 or Y eq 2) =>
// A filter passes an order by sure expressions.
5 Sales?$apply=orderby(Amount)/filter(ID eq 1)/top(1) => filter(ID eq 1)/orderby(Amount)/top(1)
5 Sales?$apply=orderby(ID desc,Amount)/filter(ID add 1 gt 2) => filter(ID add 1 gt 2)/orderby(ID desc,Amount)
5 Sales?$apply=orderby(ID)/filter(ID eq 1)/filter(ID eq 2) => filter(ID eq 1)/orderby(ID)/filter(ID eq 2)
5 Sales?$apply=concat(top(1),orderby(ID)/filter(ID eq 1)) => concat(top(1),filter(ID eq 1)/orderby(ID))
5 Sales?$apply=orderby(Amount add 1)/filter(ID eq 1)/orderby(ID desc)/filter(ID eq 2) => orderby(Amount add 1)/filter(ID eq 1)/filter(ID eq 2)/orderby(ID desc)
5 Sales?$apply=orderby(ID,Amount add 1)/filter(ID eq 1) =>
5 Sales?$apply=orderby(ID)/top(1)/filter(ID eq 1) =>
// A sure filter on plain keys passes a grouping.
6 Sales?$apply=groupby((Customer/Country),aggregate(Amount with sum as T))/filter(Customer/Country eq 'US') => filter(Customer/Country eq 'US')/groupby((Customer/Country),aggregate(Amount with sum as T))
6 Sales?$apply=groupby((OrgID,CustomerID),aggregate($count as N))/filter(N gt 1)/filter(CustomerID eq 'C1')/top(1) => filter(CustomerID eq 'C1')/groupby((OrgID,CustomerID),aggregate($count as N))/filter(N gt 1)/top(1)
6 Sales?$apply=groupby((OrgID))/filter(true) => filter(true)/groupby((OrgID))
6 Sales?$apply=groupby((Customer/Country),aggregate(Amount with sum as T))/filter(T gt 5) =>
6 Sales?$apply=groupby((ID),aggregate($count as N))/filter(ID add 1 gt 2) =>
6 Sales?$apply=groupby((ID),filter(ID add 1 gt 2)/aggregate($count as N))/filter(ID eq 1) =>
6 Sales?$apply=compute(Amount add 1 as X)/groupby((ID,X))/filter(ID eq 1) =>
6 Sales?$apply=groupby((rollup(OrgID,CustomerID)),aggregate($count as N))/filter(OrgID eq 'US') =>
// A sure filter on keys that stand in every row passes a grouping with a rollup.
7 Sales?$apply=groupby((rollup(OrgID,CustomerID)),aggregate($count as N))/filter(OrgID eq 'US') => filter(OrgID eq 'US')/groupby((rollup(OrgID,CustomerID)),aggregate($count as N))
7 Sales?$apply=groupby((ID,rollup($all,OrgID)),aggregate($count as N))/filter(ID eq 1) => filter(ID eq 1)/groupby((ID,rollup($all,OrgID)),aggregate($count as N))
7 Sales?$apply=groupby((ID,rollup($all,OrgID)),aggregate($count as N))/filter(ID eq 1 and OrgID eq 'US')/filter(ID ne 2) => filter(ID ne 2)/groupby((ID,rollup($all,OrgID)),aggregate($count as N))/filter(ID eq 1 and OrgID eq 'US')
7 Sales?$apply=groupby((rollup($all,OrgID)),aggregate($count as N))/filter(OrgID eq 'US') =>
7 Sales?$apply=groupby((rollup(OrgID,CustomerID)),aggregate($count as N))/filter(CustomerID eq 'C1') =>
// A filter that is typed on each branch goes to the end of every branch.
8 Sales?$apply=concat(identity,top(1))/filter(ID eq 1) => concat(identity/filter(ID eq 1),top(1)/filter(ID eq 1))
8 Sales?$apply=concat(aggregate($count as N),aggregate($count as N,Amount with max as T))/filter(T gt 1)/filter(N gt 1)/skip(1) => concat(aggregate($count as N)/filter(N gt 1),aggregate($count as N,Amount with max as T)/filter(N gt 1))/filter(T gt 1)/skip(1)
8 Sales?$apply=concat(identity,top(1))/filter(ID add 1 gt 2)/filter(ID eq 1) => concat(identity/filter(ID add 1 gt 2),top(1)/filter(ID add 1 gt 2))/filter(ID eq 1)
8 Sales?$apply=concat(aggregate($count as N),aggregate($count as N,Amount with sum as T))/filter(N gt 1 and T gt 1) =>
8 Sales?$apply=concat(identity,compute(1 as X))/filter(X eq 1) =>
// A step with which all branches begin goes before the concatenation.
9 Sales?$apply=concat(filter(ID eq 1)/top(1),filter(ID eq 1)/top(2)) => filter(ID eq 1)/concat(top(1),top(2))
9 Sales?$apply=concat(top(1),top(1)/skip(1),top(1)) => top(1)/concat(identity,skip(1),identity)
9 Customers?$apply=concat(join(Sales as S,concat(top(1),top(1)/skip(1))),top(1)) => concat(join(Sales as S,top(1)/concat(identity,skip(1))),top(1))
9 Sales?$apply=concat(filter(ID eq 1),filter(ID eq 2)) =>
9 Sales?$apply=concat(identity/top(1),identity/top(2)) =>
9 Sales?$apply=concat(top(1),top(1),skip(1)) =>
// A sure filter with no path under the alias passes a join.
10 Customers?$apply=join(Sales as S)/filter(Country eq 'US') => filter(Country eq 'US')/join(Sales as S)
10 Customers?$apply=join(Sales as S,filter(Amount gt 5)/aggregate($count as N))/filter(S/N eq 1)/filter(ID eq 'C1')/filter(Name ne 'Sue') => filter(ID eq 'C1')/join(Sales as S,filter(Amount gt 5)/aggregate($count as N))/filter(S/N eq 1)/filter(Name ne 'Sue')
10 Customers?$apply=join(Sales as S)/filter(true) => filter(true)/join(Sales as S)
10 Customers?$apply=join(Sales as S)/filter(S/Amount gt 5) =>
10 Customers?$apply=join(Sales as S)/filter(Country eq 'US' or S/Amount gt 5) =>
10 Customers?$apply=join(Sales as S)/filter(length(Name) add 1 gt 5) =>
10 Customers?$apply=join(Sales as S,filter(ID add 1 gt 2))/filter(Country eq 'US') =>
10 Customers?$apply=outerjoin(Sales as S)/filter(Country eq 'US') =>
// A filter whose paths all lie under the alias goes into the join.
11 Customers?$apply=join(Sales as S)/filter(S/Amount gt 5) => join(Sales as S,filter(Amount gt 5))
11 Customers?$apply=join(Sales as S,top(1))/filter(Country eq 'US')/filter(S/Customer/Country ne S/OrgID)/skip(1) => join(Sales as S,top(1)/filter(Customer/Country ne OrgID))/filter(Country eq 'US')/skip(1)
11 Customers?$apply=join(Sales as S)/filter(S/ID add 1 gt 2)/filter(S/ID eq 1) => join(Sales as S,filter(ID add 1 gt 2))/filter(S/ID eq 1)
11 Customers?$apply=join(Sales as S,filter(ID add 1 gt 2))/filter(-S/Amount lt 0 and not startswith(S/OrgID,'U')) => join(Sales as S,filter(ID add 1 gt 2)/filter(-Amount lt 0 and not startswith(OrgID,'U')))
11 Customers?$apply=groupby((Country),join(Sales as S,aggregate(Amount with max as M))/filter(S/M gt 5 or S/M eq null)) => groupby((Country),join(Sales as S,aggregate(Amount with max as M)/filter(M gt 5 or M eq null)))
11 Customers?$apply=join(Sales as S)/filter(Country eq 'US') =>
11 Customers?$apply=join(Sales as S)/filter(S/OrgID eq Country) =>
11 Customers?$apply=join(Sales as S)/filter(1 eq 2) =>
11 Customers?$apply=join(Sales as S)/filter(length(Name) add 1 gt 5)/filter(S/Amount gt 5) =>
11 Customers?$apply=outerjoin(Sales as S)/filter(S/Amount gt 5) =>
// A filter with no path under the alias passes an outer join.
12 Customers?$apply=outerjoin(Sales as S)/filter(Country eq 'US') => filter(Country eq 'US')/outerjoin(Sales as S)
12 Customers?$apply=outerjoin(Sales as S)/filter(length(Name) add 1 gt 5) => filter(length(Name) add 1 gt 5)/outerjoin(Sales as S)
12 Customers?$apply=outerjoin(Sales as S,aggregate($count as N))/filter(S/N eq 1)/filter(ID eq 'C1') => filter(ID eq 'C1')/outerjoin(Sales as S,aggregate($count as N))/filter(S/N eq 1)
12 Customers?$apply=outerjoin(Sales as S)/filter(S/Amount gt 5) =>
12 Customers?$apply=outerjoin(Sales as S,filter(ID add 1 gt 2))/filter(Country eq 'US') =>
12 Customers?$apply=outerjoin(Sales as S)/filter(S/ID eq 1)/filter(length(Name) add 1 gt 5) =>
12 Customers?$apply=join(Sales as S)/filter(Country eq 'US') =>
// An order by sure expressions is dropped before an aggregation.
13 Sales?$apply=orderby(Amount desc)/aggregate(Amount with sum as T) => aggregate(Amount with sum as T)
13 Sales?$apply=groupby((OrgID),orderby(ID)/aggregate($count as N))/orderby(OrgID) => groupby((OrgID),aggregate($count as N))/orderby(OrgID)
13 Sales?$apply=orderby(ID)/orderby(Amount)/aggregate($count as N) => orderby(ID)/aggregate($count as N)
13 Sales?$apply=ancestors($root/Orgs,OrgTree,OrgID,concat(orderby(ID),orderby(ID)/aggregate(OrgID with max as OrgID))) => ancestors($root/Orgs,OrgTree,OrgID,concat(orderby(ID),aggregate(OrgID with max as OrgID)))
13 Sales?$apply=orderby(Amount add 1)/aggregate($count as N) =>
13 Sales?$apply=orderby(ID)/top(2)/aggregate($count as N)/orderby(N) =>
// Two counts from the top by one expression become the lesser.
14 Sales?$apply=topcount(3,Amount)/topcount(2,Amount) => topcount(2,Amount)
14 Sales?$apply=topcount(0,ID mul 2)/topcount(9223372036854775807,ID mul 2) => topcount(0,ID mul 2)
14 Sales?$apply=topcount(3,ID)/topcount(1,ID)/topcount(2,ID) => topcount(1,ID)/topcount(2,ID)
14 Customers?$apply=groupby((Country),join(Sales as S,concat(top(1),topcount(3,Amount)/topcount(2,Amount)))) => groupby((Country),join(Sales as S,concat(top(1),topcount(2,Amount))))
14 Sales?$apply=topcount(3,Amount)/topcount(2,ID)/topcount(1,ID) => topcount(3,Amount)/topcount(1,ID)
14 Sales?$apply=topcount(3,Amount)/identity/topcount(2,Amount) =>
14 Sales?$apply=bottomcount(3,Amount)/bottomcount(2,Amount)/topcount(1,Amount)/topsum(1,Amount) =>
14 Sales?$apply=topcount(3,Amount mul 1.0)/topcount(2,Amount mul 1.00) =>
// A sure filter passes a walk over the nodes of a sure path.
15 Orgs?$apply=traverse($root/Orgs,OrgTree,ID,preorder)/filter(ID eq 'US') => filter(ID eq 'US')/traverse($root/Orgs,OrgTree,ID,preorder)
15 Sales?$apply=traverse($root/Orgs,OrgTree,OrgID,postorder,ID desc)/filter(ID eq 1)/filter(Amount gt 2)/top(1) => filter(ID eq 1)/traverse($root/Orgs,OrgTree,OrgID,postorder,ID desc)/filter(Amount gt 2)/top(1)
15 Sales?$apply=traverse($root/Orgs,OrgTree,OrgID,preorder)/filter(ID add 1 gt 2) =>
15 Sales?$apply=traverse($root/Orgs,OrgTree,OrgID,preorder)/filter(ID add 1 gt 2)/filter(ID eq 1) =>
15 Sales?$apply=traverse($root/Orgs,OrgTree,OrgID,preorder)/top(1)/filter(ID eq 1) =>
// A sure filter on the plain keys passes a grouping with a recursive rollup.
16 Sales?$apply=groupby((CustomerID,rolluprecursive($root/Orgs,OrgTree,OrgID)),aggregate($count as N))/filter(CustomerID eq 'C1') => filter(CustomerID eq 'C1')/groupby((CustomerID,rolluprecursive($root/Orgs,OrgTree,OrgID)),aggregate($count as N))
16 Sales?$apply=groupby((CustomerID,rolluprecursive($root/Orgs,OrgTree,OrgID,filter(length(ID) add 1 gt 2))),aggregate($count as N))/filter(OrgID eq 'US')/filter(CustomerID eq 'C1') => filter(CustomerID eq 'C1')/groupby((CustomerID,rolluprecursive($root/Orgs,OrgTree,OrgID,filter(length(ID) add 1 gt 2))),aggregate($count as N))/filter(OrgID eq 'US')
16 Sales?$apply=groupby((CustomerID,rolluprecursive($root/Orgs,OrgTree,OrgID)),aggregate($count as N))/filter(OrgID eq 'US') =>
16 Sales?$apply=groupby((CustomerID,rolluprecursive($root/Orgs,OrgTree,OrgID)),filter(ID add 1 gt 2)/aggregate($count as N))/filter(CustomerID eq 'C1') =>
// A sure filter on the node alone goes to the end of the pipeline that chooses the nodes.
17 Sales?$apply=groupby((rolluprecursive($root/Orgs,OrgTree,OrgID)),aggregate($count as N))/filter(OrgID eq 'US') => groupby((rolluprecursive($root/Orgs,OrgTree,OrgID,filter(ID eq 'US'))),aggregate($count as N))
17 Sales?$apply=groupby((CustomerID,rolluprecursive($root/Orgs,OrgTree,Org/ID,filter(ID ne 'Lab'))),aggregate($count as N))/filter(CustomerID eq 'C1')/filter(Org/ID eq 'US' or Org/ID eq 'EMEA')/top(1) => groupby((CustomerID,rolluprecursive($root/Orgs,OrgTree,Org/ID,filter(ID ne 'Lab')/filter(ID eq 'US' or ID eq 'EMEA'))),aggregate($count as N))/filter(CustomerID eq 'C1')/top(1)
17 Sales?$apply=groupby((CustomerID,rolluprecursive($root/Orgs,OrgTree,OrgID)),aggregate($count as N))/filter(CustomerID eq OrgID) =>
17 Sales?$apply=groupby((rolluprecursive($root/Orgs,OrgTree,OrgID)),aggregate($count as N))/filter(1 eq 1) =>
17 Sales?$apply=groupby((rolluprecursive($root/Orgs,OrgTree,OrgID)),aggregate($count as N))/filter(length(OrgID) add 1 gt 2) =>
17 Sales?$apply=groupby((rolluprecursive($root/Orgs,OrgTree,OrgID)),filter(ID add 1 gt 2)/aggregate($count as N))/filter(OrgID eq 'US') =>
// The last step of a climb's pipeline is dropped where it is idle.
18 Sales?$apply=ancestors($root/Orgs,OrgTree,OrgID,filter(ID eq 1)/orderby(ID)) => ancestors($root/Orgs,OrgTree,OrgID,filter(ID eq 1))
18 Sales?$apply=descendants($root/Orgs,OrgTree,OrgID,compute(ID add 1 as X),2,keep start) => descendants($root/Orgs,OrgTree,OrgID,identity,2,keep start)
18 Sales?$apply=ancestors($root/Orgs,OrgTree,OrgID,compute(ID as X)/orderby(X)/compute(ID as Y)) => ancestors($root/Orgs,OrgTree,OrgID,compute(ID as X)/orderby(X))
18 Sales?$apply=ancestors($root/Orgs,OrgTree,OrgID,orderby(ID add 1)) =>
18 Sales?$apply=ancestors($root/Orgs,OrgTree,OrgID,aggregate($count as N)/compute('US' as OrgID)) =>
18 Sales?$apply=ancestors($root/Orgs,OrgTree,OrgID,orderby(ID)/top(1)) =>
";

/// Requests over the sample's model, and the plans of their pipelines.
const SAMPLE_PLANS: &str = r"
// By hand.
Sales?$apply=compute(Amount add 1 as X)/filter(ID eq 1 and Amount gt 2) => filter(ID eq 1)/filter(Amount gt 2)/compute(Amount add 1 as X)
Sales?$apply=compute(Amount add 1 as X)/filter(X gt 2) => compute(Amount add 1 as X)/filter(X gt 2)
Sales?$apply=topcount(3,Amount)/identity/topcount(2,Amount) => topcount(2,Amount)
Sales?$apply=orderby(ID)/aggregate($count as N) => aggregate($count as N)
Sales?$apply=compute(Amount add 1 as X)/filter(X gt 2)/filter(ID eq 1 and ID eq 2) => compute(Amount add 1 as X)/filter(X gt 2)/filter(ID eq 1)/filter(ID eq 2)
Sales?$apply=compute(Amount as X)/filter(X gt 2)/filter(ID eq 1 and ID add 1 gt 2)/orderby(X)/filter(ID eq 3) => compute(Amount as X)/filter(X gt 2)/filter(ID eq 1 and ID add 1 gt 2)/filter(ID eq 3)/orderby(X)
Sales?$apply=orderby(ID)/compute(ID as A)/orderby(Amount add 1)/compute(ID as B)/filter(A eq 1 and B eq 2 and ID eq 3) => orderby(ID)/compute(ID as A)/orderby(Amount add 1)/filter(A eq 1)/filter(ID eq 3)/compute(ID as B)/filter(B eq 2)
Sales?$apply=orderby(ID)/filter(ID add 1 gt 2)/filter(ID eq 1)/aggregate($count as N) => filter(ID add 1 gt 2)/filter(ID eq 1)/aggregate($count as N)
Sales?$apply=orderby(Amount)/filter(Amount gt 2)/identity/filter(true)/aggregate($count as N)/orderby(N)/aggregate(N with sum as T) => filter(Amount gt 2)/aggregate($count as N)/aggregate(N with sum as T)
Sales?$apply=topcount(3,ID)/filter(true)/topcount(2,ID)/filter(ID eq 1)/topcount(1,ID) => topcount(2,ID)/filter(ID eq 1)/topcount(1,ID)
Customers?$apply=concat(identity/groupby((Country),join(Sales as S,compute(ID as X)/filter(X gt 1 and Amount gt 2)/topcount(3,ID)/topcount(2,ID))),identity) => concat(groupby((Country),join(Sales as S,filter(Amount gt 2)/compute(ID as X)/filter(X gt 1)/topcount(2,ID))),identity)
Sales?$apply=descendants($root/Orgs,OrgTree,OrgID,ancestors($root/Orgs,OrgTree,OrgID,orderby(ID)/filter(OrgID eq 'US' and true)/identity,1)/orderby(OrgID)/filter(ID gt 1),keep start)/filter(true) => descendants($root/Orgs,OrgTree,OrgID,ancestors($root/Orgs,OrgTree,OrgID,filter(OrgID eq 'US'),1)/filter(ID gt 1),keep start)
Sales?$apply=groupby((CustomerID,rolluprecursive($root/Orgs,OrgTree,OrgID,compute(ID as X)/filter(X ne 'US' and ID ne 'Lab')/orderby(ID)/filter(true))),orderby(ID)/filter(true)/aggregate(Amount with sum as T))/filter(T gt 1 and CustomerID eq 'C1') => groupby((CustomerID,rolluprecursive($root/Orgs,OrgTree,OrgID,filter(ID ne 'Lab')/compute(ID as X)/filter(X ne 'US')/orderby(ID))),aggregate(Amount with sum as T))/filter(T gt 1)/filter(CustomerID eq 'C1')
// By hand, through groups, concatenations, joins and hierarchies.
Sales?$apply=groupby((Customer/Country),aggregate(Amount with sum as T))/filter(Customer/Country eq 'US') => filter(Customer/Country eq 'US')/groupby((Customer/Country),aggregate(Amount with sum as T))
Sales?$apply=groupby((Customer/Country),aggregate(Amount with sum as T))/filter(T gt 5) => groupby((Customer/Country),aggregate(Amount with sum as T))/filter(T gt 5)
Customers?$apply=join(Sales as S)/filter(S/Amount gt 5) => join(Sales as S,filter(Amount gt 5))
Customers?$apply=outerjoin(Sales as S)/filter(S/Amount gt 5) => outerjoin(Sales as S)/filter(S/Amount gt 5)
Customers?$apply=outerjoin(Sales as S)/filter(Country eq 'US') => filter(Country eq 'US')/outerjoin(Sales as S)
Sales?$apply=groupby((rollup($all,OrgID)),aggregate($count as N))/filter(OrgID eq 'US') => groupby((rollup($all,OrgID)),aggregate($count as N))/filter(OrgID eq 'US')
Orgs?$apply=traverse($root/Orgs,OrgTree,ID,preorder)/filter(ID eq 'US') => filter(ID eq 'US')/traverse($root/Orgs,OrgTree,ID,preorder)
Sales?$apply=ancestors($root/Orgs,OrgTree,OrgID,filter(ID eq 1)/orderby(ID)) => ancestors($root/Orgs,OrgTree,OrgID,filter(ID eq 1))
Sales?$apply=groupby((CustomerID,rolluprecursive($root/Orgs,OrgTree,OrgID)),aggregate($count as N))/filter(CustomerID eq 'C1') => filter(CustomerID eq 'C1')/groupby((CustomerID,rolluprecursive($root/Orgs,OrgTree,OrgID)),aggregate($count as N))
Customers?$apply=concat(join(Sales as S,traverse($root/Orgs,OrgTree,OrgID,preorder)/traverse($root/Orgs,OrgTree,OrgID,postorder)/filter(ID eq 1))/traverse($root/Orgs,OrgTree,ID,preorder)/filter(ID eq 'a')/skip(1),join(Sales as S,traverse($root/Orgs,OrgTree,OrgID,preorder)/filter(ID eq 1)/traverse($root/Orgs,OrgTree,OrgID,postorder))/skip(2)) => join(Sales as S,filter(ID eq 1)/traverse($root/Orgs,OrgTree,OrgID,preorder)/traverse($root/Orgs,OrgTree,OrgID,postorder))/concat(filter(ID eq 'a')/traverse($root/Orgs,OrgTree,ID,preorder)/skip(1),skip(2))
Customers?$apply=concat(concat(traverse($root/Orgs,OrgTree,ID,preorder)/traverse($root/Orgs,OrgTree,ID,postorder)/filter(ID eq 'a'),skip(3))/traverse($root/Orgs,OrgTree,ID,preorder)/filter(ID eq 'b')/skip(1),concat(traverse($root/Orgs,OrgTree,ID,preorder)/filter(ID eq 'a')/traverse($root/Orgs,OrgTree,ID,postorder),skip(3))/skip(2)) => concat(filter(ID eq 'a')/traverse($root/Orgs,OrgTree,ID,preorder)/traverse($root/Orgs,OrgTree,ID,postorder),skip(3))/concat(filter(ID eq 'b')/traverse($root/Orgs,OrgTree,ID,preorder)/skip(1),skip(2))
Customers?$apply=concat(groupby((ID),traverse($root/Orgs,OrgTree,ID,preorder)/traverse($root/Orgs,OrgTree,ID,postorder)/filter(ID eq 'a'))/traverse($root/Orgs,OrgTree,ID,preorder)/filter(ID eq 'b')/skip(1),groupby((ID),traverse($root/Orgs,OrgTree,ID,preorder)/filter(ID eq 'a')/traverse($root/Orgs,OrgTree,ID,postorder))/skip(2)) => groupby((ID),filter(ID eq 'a')/traverse($root/Orgs,OrgTree,ID,preorder)/traverse($root/Orgs,OrgTree,ID,postorder))/concat(filter(ID eq 'b')/traverse($root/Orgs,OrgTree,ID,preorder)/skip(1),skip(2))
Customers?$apply=concat(join(Sales as S,traverse($root/Orgs,OrgTree,OrgID,preorder)/filter(ID eq 1))/filter(ID eq 'a'),join(Sales as S,filter(ID eq 1)/traverse($root/Orgs,OrgTree,OrgID,preorder))) => concat(filter(ID eq 'a')/join(Sales as S,filter(ID eq 1)/traverse($root/Orgs,OrgTree,OrgID,preorder)),join(Sales as S,filter(ID eq 1)/traverse($root/Orgs,OrgTree,OrgID,preorder)))
Customers?$apply=join(Sales as S)/filter(S/ID add 1 gt 1)/filter(ID eq 'a') => join(Sales as S,filter(ID add 1 gt 1))/filter(ID eq 'a')
Customers?$apply=join(Sales as S)/filter(S/ID add 1 gt 1)/traverse($root/Orgs,OrgTree,ID,preorder)/filter(ID eq 'a')/filter(S/ID eq 1) => join(Sales as S,filter(ID add 1 gt 1)/filter(ID eq 1))/filter(ID eq 'a')/traverse($root/Orgs,OrgTree,ID,preorder)
Customers?$apply=concat(compute(1 as X),compute(length(Name) add 1 as X))/filter(ID eq 'a' and X gt 1) => concat(filter(ID eq 'a')/compute(1 as X)/filter(X gt 1),compute(length(Name) add 1 as X)/filter(ID eq 'a' and X gt 1))
Customers?$apply=concat(compute(1 as X)/traverse($root/Orgs,OrgTree,ID,preorder),compute(length(Name) add 1 as X)/traverse($root/Orgs,OrgTree,ID,postorder))/filter(X gt 1 and ID eq 'a')/filter(Name eq 'c' and X gt 2) => concat(filter(ID eq 'a')/filter(Name eq 'c')/compute(1 as X)/filter(X gt 1)/filter(X gt 2)/traverse($root/Orgs,OrgTree,ID,preorder),compute(length(Name) add 1 as X)/traverse($root/Orgs,OrgTree,ID,postorder)/filter(X gt 1)/filter(ID eq 'a')/filter(Name eq 'c' and X gt 2))
Customers?$apply=concat(join(Sales as S)/filter(ID eq 'a')/skip(1),filter(ID eq 'a')/join(Sales as S)/filter(Name eq 'c')/skip(2)) => filter(ID eq 'a')/join(Sales as S)/concat(skip(1),filter(Name eq 'c')/skip(2))
Customers?$apply=concat(filter(ID eq 'a')/join(Sales as S)/filter(Name eq 'c')/skip(2),join(Sales as S)/filter(ID eq 'a')/skip(1)) => filter(ID eq 'a')/concat(filter(Name eq 'c')/join(Sales as S)/skip(2),join(Sales as S)/skip(1))
Customers?$apply=concat(filter(ID eq 'a')/join(Sales as S),join(Sales as S)/filter(ID eq 'a')/filter(S/ID eq 1)) => filter(ID eq 'a')/join(Sales as S)/concat(identity,filter(S/ID eq 1))
Sales?$apply=concat(compute(1 as X)/concat(filter(ID eq 1)/skip(1),filter(ID eq 1)/top(1)),compute(1 as X)) => compute(1 as X)/concat(filter(ID eq 1)/concat(skip(1),top(1)),identity)
Sales?$apply=concat(orderby(ID)/aggregate($count as N),orderby(ID)/aggregate($count as M)) => orderby(ID)/concat(aggregate($count as N),aggregate($count as M))
Sales?$apply=orderby(ID)/concat(aggregate($count as N)/skip(1),aggregate($count as N)/top(1)) => aggregate($count as N)/concat(skip(1),top(1))
Sales?$apply=topcount(2,ID)/concat(topcount(1,ID)/skip(1),topcount(1,ID)/top(1)) => topcount(1,ID)/concat(skip(1),top(1))
Customers?$apply=concat(ancestors($root/Orgs,OrgTree,ID,skip(1)/orderby(ID))/join(Sales as S)/filter(ID eq 'a'),ancestors($root/Orgs,OrgTree,ID,skip(1))/join(Sales as S)) => ancestors($root/Orgs,OrgTree,ID,skip(1))/concat(filter(ID eq 'a')/join(Sales as S),join(Sales as S))
Customers?$apply=concat(compute(1 as X)/skip(1),compute(1 as X))/join(Sales as U)/filter(ID eq 'a') => compute(1 as X)/concat(skip(1)/filter(ID eq 'a'),filter(ID eq 'a'))/join(Sales as U)
Customers?$apply=groupby((Name,rolluprecursive($root/Orgs,OrgTree,ID)))/filter(ID eq 'a')/filter(Name eq 'c')/filter(ID eq 'b' and Name eq 'd') => filter(Name eq 'c')/filter(Name eq 'd')/groupby((Name,rolluprecursive($root/Orgs,OrgTree,ID,filter(ID eq 'a')/filter(ID eq 'b'))))
Customers?$apply=concat(groupby((Name,rolluprecursive($root/Orgs,OrgTree,ID)))/filter(ID eq 'a'),groupby((Name,rolluprecursive($root/Orgs,OrgTree,ID,filter(ID eq 'a'))))/filter(Name eq 'c')) => concat(groupby((Name,rolluprecursive($root/Orgs,OrgTree,ID,filter(ID eq 'a')))),filter(Name eq 'c')/groupby((Name,rolluprecursive($root/Orgs,OrgTree,ID,filter(ID eq 'a')))))
Customers?$apply=concat(identity,skip(1))/join(Sales as S,concat(traverse($root/Orgs,OrgTree,OrgID,preorder)/skip(1),traverse($root/Orgs,OrgTree,OrgID,preorder)/top(1)))/filter(S/ID eq 1)/filter(ID eq 'a') => concat(filter(ID eq 'a'),skip(1)/filter(ID eq 'a'))/join(Sales as S,traverse($root/Orgs,OrgTree,OrgID,preorder)/concat(skip(1)/filter(ID eq 1),top(1)/filter(ID eq 1)))
Customers?$apply=join(Sales as S,concat(traverse($root/Orgs,OrgTree,OrgID,preorder),traverse($root/Orgs,OrgTree,OrgID,postorder)/filter(ID eq 1)))/outerjoin(Sales as U,traverse($root/Orgs,OrgTree,OrgID,preorder)/filter(ID eq 2))/filter(ID eq 'a' and S/ID eq 1)/filter(U/ID eq 3) => filter(ID eq 'a')/join(Sales as S,filter(ID eq 1)/concat(traverse($root/Orgs,OrgTree,OrgID,preorder),filter(ID eq 1)/traverse($root/Orgs,OrgTree,OrgID,postorder)))/outerjoin(Sales as U,filter(ID eq 2)/traverse($root/Orgs,OrgTree,OrgID,preorder))/filter(U/ID eq 3)
// At random.
Sales?$apply=compute(ID mul 9223372036854775807 as total1)/filter(Customer/Since eq 2020-02-29)/identity/filter(true and Customer/Since eq 2020-02-29)/filter(true)/concat(filter(true)/skip(5),filter(0.000 ne ID)) => filter(Customer/Since eq 2020-02-29)/filter(Customer/Since eq 2020-02-29)/compute(ID mul 9223372036854775807 as total1)/concat(skip(5),filter(0.000 ne ID))
Orgs?$apply=groupby((ParentID,ID,Superordinate/ParentID))/compute(ParentID as X1)/filter(X1 eq 'US')/filter(ParentID ne 'US')/ancestors($root/Orgs,OrgTree,X1,identity/compute(0 sub 0.5 as X2)/filter(not true and true),9223372036854775807) => filter(ParentID ne 'US')/groupby((ParentID,ID,Superordinate/ParentID))/compute(ParentID as X1)/filter(X1 eq 'US')/ancestors($root/Orgs,OrgTree,X1,filter(not true),9223372036854775807)
Customers?$apply=identity/ancestors($root/Orgs,OrgTree,Country,groupby((rolluprecursive($root/Orgs,OrgTree,Country)),filter(true and false)/aggregate($count as _x1)))/filter(true)/filter(Country le 'FR') => ancestors($root/Orgs,OrgTree,Country,groupby((rolluprecursive($root/Orgs,OrgTree,Country)),filter(false)/aggregate($count as _x1)))/filter(Country le 'FR')
Customers?$apply=orderby(ID desc)/filter(Country gt 'US')/filter(Name le 'Luc' and Country eq 'FR')/filter(ID eq 'C2')/aggregate($count as total1) => filter(Country gt 'US')/filter(Name le 'Luc')/filter(Country eq 'FR')/filter(ID eq 'C2')/aggregate($count as total1)
Customers?$apply=outerjoin(Sales as X1,filter(true and (false or false)))/filter(true)/identity/skip(9223372036854775807) => outerjoin(Sales as X1,filter(false or false))/skip(9223372036854775807)
Orgs?$apply=topcount(2,5.0)/topcount(2,5.0)/filter(-2 gt -4)/filter(true and true)/filter(true)/compute(Superordinate/ParentID as X1)/filter(-2 gt -4)/topcount(2,5.0) => topcount(2,5.0)/filter(-2 gt -4)/filter(-2 gt -4)/compute(Superordinate/ParentID as X1)/topcount(2,5.0)
Customers?$apply=groupby((Name,rolluprecursive($root/Orgs,OrgTree,Country,filter(startswith(ParentID,Superordinate/Superordinate/ParentID) and (2020-02-29 ge 2019-05-01 and true)))))/filter(true)/filter(Name ne 'Sue') => filter(Name ne 'Sue')/groupby((Name,rolluprecursive($root/Orgs,OrgTree,Country,filter(startswith(ParentID,Superordinate/Superordinate/ParentID))/filter(2020-02-29 ge 2019-05-01))))
Sales?$apply=filter(ID mul 9223372036854775807 lt 1 and ID mul 9223372036854775807 ge 0)/identity/groupby((ID,Customer/Name),orderby(2020-12-31 desc)/compute(2020-12-31 as X5,Amount as Y6)/filter(Amount eq 6)) => filter(ID mul 9223372036854775807 lt 1 and ID mul 9223372036854775807 ge 0)/groupby((ID,Customer/Name),filter(Amount eq 6)/orderby(2020-12-31 desc)/compute(2020-12-31 as X5,Amount as Y6))
Customers?$apply=filter(Country eq 'FR')/filter(true)/filter(Country eq 'FR')/filter(true and true)/outerjoin(Sales as root,identity/topcount(9223372036854775807,4)/topcount(0,4))/filter(99999999999999999.9 add 0.0001 gt 2) => filter(Country eq 'FR')/filter(Country eq 'FR')/filter(99999999999999999.9 add 0.0001 gt 2)/outerjoin(Sales as root,topcount(0,4))
Orgs?$apply=orderby(0.1 desc,3 desc)/orderby(0.1 desc,3 desc)/orderby(0.1 desc,3 desc)/aggregate(-(4 add 6) with countdistinct as Y1)/identity/filter(true) => aggregate(-(4 add 6) with countdistinct as Y1)
Orgs?$apply=concat(filter(true and 9223372036854775806 gt 0.000),identity)/filter(Superordinate/ID eq 'Corp')/filter(true) => concat(filter(9223372036854775806 gt 0.000)/filter(Superordinate/ID eq 'Corp'),filter(Superordinate/ID eq 'Corp'))
Sales?$apply=compute(ID mul 4611686018427387904 as total1)/filter(ID le 5)/concat(concat(topcount(0,9.7 gt Amount),topcount(4,ID)/topcount(3,ID)/topcount(2,ID)),filter(total1 mul 9223372036854775807 ne 0))/filter(ID le 5) => filter(ID le 5)/compute(ID mul 4611686018427387904 as total1)/concat(concat(topcount(0,9.7 gt Amount)/filter(ID le 5),topcount(2,ID)/filter(ID le 5)),filter(total1 mul 9223372036854775807 ne 0)/filter(ID le 5))
Customers?$apply=filter(true)/filter(contains(Name,Name))/identity/groupby((ID,Name),outerjoin(Sales as total2,compute(Amount add 3 add (ID add ID) as total1)/filter(ID mul 4611686018427387904 ge month(9999-12-31))))/filter(contains(Name,Name)) => filter(contains(Name,Name))/groupby((ID,Name),outerjoin(Sales as total2,filter(ID mul 4611686018427387904 ge month(9999-12-31))/compute(Amount add 3 add (ID add ID) as total1)))/filter(contains(Name,Name))
Sales?$apply=top(5)/concat(compute(Customer/Since as Y1,2020-02-29 as total2)/filter(contains(Customer/Country,Org/Superordinate/ID))/aggregate(not false with countdistinct as _x3),top(0))/filter(true)/orderby(ID desc)/top(5) => top(5)/concat(filter(contains(Customer/Country,Org/Superordinate/ID))/compute(Customer/Since as Y1,2020-02-29 as total2)/aggregate(not false with countdistinct as _x3),top(0))/orderby(ID desc)/top(5)
Orgs?$apply=skip(3)/filter(true)/toppercent(99,2)/descendants($root/Orgs,OrgTree,ParentID,skip(1)/orderby(1.000 le null desc)/filter(startswith(Superordinate/ID,ParentID)),2,keep start) => skip(3)/toppercent(99,2)/descendants($root/Orgs,OrgTree,ParentID,skip(1)/filter(startswith(Superordinate/ID,ParentID)),2,keep start)
Sales?$apply=compute(Amount mul 1000000000000000 as X1)/filter(Customer/Country eq 'FR')/groupby((ID),topcount(3,'b')/topcount(1,'b')/topcount(1,'b')) => filter(Customer/Country eq 'FR')/compute(Amount mul 1000000000000000 as X1)/groupby((ID),topcount(1,'b'))
Sales?$apply=compute(ID mul 9223372036854775807 as _x1)/orderby(Amount)/filter(OrgID eq 'EMEA' and (Customer/ID eq 'C1' and Org/ID eq 'EMEA'))/filter(CustomerID le 'C3') => filter(OrgID eq 'EMEA')/filter(Customer/ID eq 'C1')/filter(Org/ID eq 'EMEA')/filter(CustomerID le 'C3')/compute(ID mul 9223372036854775807 as _x1)/orderby(Amount)
Sales?$apply=concat(orderby(2 desc,OrgID)/skip(2),orderby(2 desc,OrgID)/topcount(4,Org/ID eq CustomerID),orderby(2 desc,OrgID)/filter(not true))/compute(-Amount add Amount as X1)/filter(true) => concat(orderby(2 desc,OrgID)/skip(2),orderby(2 desc,OrgID)/topcount(4,Org/ID eq CustomerID),filter(not true)/orderby(2 desc,OrgID))/compute(-Amount add Amount as X1)
Sales?$apply=identity/traverse($root/Orgs,OrgTree,Org/ParentID,postorder)/topcount(1,Amount)/topcount(4,Amount) => traverse($root/Orgs,OrgTree,Org/ParentID,postorder)/topcount(1,Amount)
Orgs?$apply=groupby((rolluprecursive($root/Orgs,OrgTree,ID,topcount(3,ID)/topcount(2,ID)),ParentID),aggregate(2019-05-01 with countdistinct as _x1))/filter(ID ne null)/aggregate(0.0000 with sum as _x2,ID with countdistinct as total3) => groupby((rolluprecursive($root/Orgs,OrgTree,ID,topcount(2,ID)/filter(ID ne null)),ParentID),aggregate(2019-05-01 with countdistinct as _x1))/aggregate(0.0000 with sum as _x2,ID with countdistinct as total3)
Sales?$apply=topcount(4,ID)/filter(true)/groupby((Customer/Country),filter(ID eq 1))/identity/topcount(4,ID)/filter(true)/topcount(4,ID) => topcount(4,ID)/groupby((Customer/Country),filter(ID eq 1))/topcount(4,ID)
Customers?$apply=ancestors($root/Orgs,OrgTree,Country,filter(1 eq 6)/filter((true or true) and (Since ne Since and true)))/identity/filter(true) => ancestors($root/Orgs,OrgTree,Country,filter(1 eq 6)/filter(true or true)/filter(Since ne Since))
Customers?$apply=groupby((rolluprecursive($root/Orgs,OrgTree,Name)),filter(true and true)/aggregate(Country with countdistinct as V1))/filter(false)/filter(null ge V1 add V1 and true) => filter(false)/groupby((rolluprecursive($root/Orgs,OrgTree,Name)),aggregate(Country with countdistinct as V1))/filter(null ge V1 add V1)
Sales?$apply=filter(2 lt 1 and OrgID lt null)/orderby(Amount)/topcount(3,'a')/topcount(0,'a') => filter(2 lt 1)/filter(OrgID lt null)/orderby(Amount)/topcount(0,'a')
";

/// The same over the model of items, shops and people.
const STOCK_PLANS: &str = r"
People?$apply=compute(Mentor/Name as total1)/orderby(0,Mentor/MentorID desc)/filter(true and true)/identity/compute(9999-12-31 as _x2,9999-12-31 as V3)/filter(true)/filter(0 eq 2 and not true) => filter(0 eq 2)/filter(not true)/compute(Mentor/Name as total1)/orderby(0,Mentor/MentorID desc)/compute(9999-12-31 as _x2,9999-12-31 as V3)
Shops?$apply=identity/concat(top(5)/topcount(1,Former/Former/Day ne null)/topcount(2,Former/Former/Day ne null),top(5)/filter(true and true and contains(Chief/Mentor/Name,Former/Former/City))) => top(5)/concat(topcount(1,Former/Former/Day ne null),filter(contains(Chief/Mentor/Name,Former/Former/City)))
People?$apply=groupby((rollup($all,Mentor/Name)),groupby((Mentor/MentorID),groupby((ID,Name),filter(true and true)/aggregate(MentorID with min as V1,$count as X2))))/filter(true)/traverse($root/People,Tree,ID,postorder) => groupby((rollup($all,Mentor/Name)),groupby((Mentor/MentorID),groupby((ID,Name),aggregate(MentorID with min as V1,$count as X2))))/traverse($root/People,Tree,ID,postorder)
Items?$apply=topcount(0,1900-02-28)/topcount(0,1900-02-28)/identity/orderby(1900-02-28,Copy/Whole/Fresh)/aggregate(Half as total1)/compute(2020-02-29 as _x2) => topcount(0,1900-02-28)/aggregate(Half as total1)/compute(2020-02-29 as _x2)
People?$apply=filter(Mentor/MentorID eq null)/identity/filter(true)/outerjoin(Pupils as total2,filter((true or true) and (true and true))) => filter(Mentor/MentorID eq null)/outerjoin(Pupils as total2,filter(true or true))
Items?$apply=filter(true)/join(Parts as _x2)/identity/descendants($root/People,Tree,Whole/Label,compute(9223372036854775806 as total1)/filter(-0 ge Copy/Whole/Price and not Whole/Fresh)) => join(Parts as _x2)/descendants($root/People,Tree,Whole/Label,filter(-0 ge Copy/Whole/Price)/filter(not Whole/Fresh))
Shops?$apply=groupby((Before,Former/ChiefID,rolluprecursive($root/Shops,Moves,Former/Former/Day,filter((true or 0.0 ge 4) and true))),aggregate(0.00 with min as V1,Chief/Mentor/MentorID with min as start))/filter(Former/ChiefID eq null) => filter(Former/ChiefID eq null)/groupby((Before,Former/ChiefID,rolluprecursive($root/Shops,Moves,Former/Former/Day,filter(true or 0.0 ge 4))),aggregate(0.00 with min as V1,Chief/Mentor/MentorID with min as start))
People?$apply=identity/filter(true)/groupby((Mentor/ID),concat(aggregate($count as V1)/filter(not ('\' ne 'k1') and true),aggregate($count as V1)/topcount(4,V1)/topcount(2,V1)/topcount(2,V1))/filter(V1 gt V1 mul 10000000000000000)) => groupby((Mentor/ID),aggregate($count as V1)/concat(filter(not ('\' ne 'k1'))/filter(V1 gt V1 mul 10000000000000000),topcount(2,V1)/filter(V1 gt V1 mul 10000000000000000)))
Items?$apply=orderby(0.00 ne Twin)/filter(month(2020-02-29) ge Copy/Copy/PartOf add 4611686018427387904)/filter(Whole/Twin eq null and (Whole/Twin lt 4 and ',' gt ','))/aggregate(Shop/Day with min as V1,$count as _x2) => filter(month(2020-02-29) ge Copy/Copy/PartOf add 4611686018427387904)/filter(Whole/Twin eq null)/filter(Whole/Twin lt 4)/filter(',' gt ',')/aggregate(Shop/Day with min as V1,$count as _x2)
Items?$apply=groupby((Whole/Made))/filter(true)/concat(orderby(4 desc)/aggregate(2 with max as X1),compute(2 as V4,5 as X5),top(5)) => groupby((Whole/Made))/concat(aggregate(2 with max as X1),compute(2 as V4,5 as X5),top(5))
Shops?$apply=filter(true)/identity/skip(5)/concat(skip(2)/filter(6 ne 0)/aggregate(Cities as X1,$count as V2)/top(2),skip(2)/orderby(Former/Former/ChiefID gt City,3)/filter(-1 gt 8.3650 sub 2)/filter(1900-02-28 ne 2020-12-31))/identity => skip(5)/skip(2)/concat(filter(6 ne 0)/aggregate(Cities as X1,$count as V2)/top(2),filter(-1 gt 8.3650 sub 2)/filter(1900-02-28 ne 2020-12-31)/orderby(Former/Former/ChiefID gt City,3))
People?$apply=join(Pupils as Y2,topcount(9223372036854775807,Name)/topcount(2,Name)/outerjoin(Pupils as X1))/filter(not not false and true)/orderby(Y2/Mentor/MentorID,4611686018427387904)/filter(true)/filter(not not false)/identity => filter(not not false)/filter(not not false)/join(Pupils as Y2,topcount(2,Name)/outerjoin(Pupils as X1))/orderby(Y2/Mentor/MentorID,4611686018427387904)
Shops?$apply=concat(compute(Chief/Mentor/ID as Y1)/filter(null eq Former/Former/Day),identity,topcount(4,0001-01-01))/top(0)/compute(length(Chief/Mentor/Name) as _x2)/filter(startswith(Former/City,Chief/ID)) => concat(filter(null eq Former/Former/Day)/compute(Chief/Mentor/ID as Y1),identity,topcount(4,0001-01-01))/top(0)/filter(startswith(Former/City,Chief/ID))/compute(length(Chief/Mentor/Name) as _x2)
People?$apply=concat(outerjoin(Shops as total1,orderby(Former/ChiefID)/filter(startswith(City,Chief/Name))),identity)/filter(Name ne null and total1/Chief/Name eq null)/filter(Mentor/MentorID eq null) => filter(Name ne null)/filter(Mentor/MentorID eq null)/concat(outerjoin(Shops as total1,filter(startswith(City,Chief/Name))/orderby(Former/ChiefID)),identity)/filter(total1/Chief/Name eq null)
Items?$apply=filter(Shop/ChiefID ne null)/filter(true)/descendants($root/Items,Tree,Whole/Code,identity/orderby(Whole/Ratio mul 10000000000000000))/filter(true and true)/identity/filter(Price eq null) => filter(Shop/ChiefID ne null)/descendants($root/Items,Tree,Whole/Code,orderby(Whole/Ratio mul 10000000000000000))/filter(Price eq null)
Items?$apply=filter(Shop/ChiefID eq null)/concat(groupby((Fresh,Made,Shop/Day),compute(not (Shop/Former/Before ne 2019-05-01) as total3)/filter(Fresh)),outerjoin(Parts as total4)) => filter(Shop/ChiefID eq null)/concat(groupby((Fresh,Made,Shop/Day),filter(Fresh)/compute(not (Shop/Former/Before ne 2019-05-01) as total3)),outerjoin(Parts as total4))
";

/// More rewrites than a row takes.
const MOST: u32 = 100;

/// The typing of a request's pipeline.
fn typed(rt: &impl Abort, alloc: Global, m: &Model, c: &Customs, line: &str) -> Result<Typed, Fail>
    requires customs { AreTypedOver m.now c.now }
    ensures set { IfOk result (λ t. IsSet m.now t.set) }
    ensures typing { IfOk result (IsTyping m.now (readings c.now)) }
{
    let request = read_request(alloc, line.as_bytes())?;
    let Some(set) = m.set_named(request.set.text()) else {
        panic!(rt; "no set: {line}");
    };
    Ok(type_pipe(alloc, m, c, set, &request.pipe)?)
}

/// What the rule of this number makes of a typed pipeline.
fn by_rule(
    alloc: Global,
    m: &Model,
    c: &Customs,
    number: &str,
    t: &Typed,
) -> Result<Option<Typed>, Fail>
    requires set { IsSet m.now t.now.set }
    requires customs { AreTypedOver m.now c.now }
    requires whole { IsTrue (customs_typed m.now (readings c.now)) }
    requires typing { IsTyping m.now (readings c.now) t.now }
{
    let made = match number {
        "1" => rule_1(alloc, m, c, t)?,
        "2" => rule_2(alloc, m, c, t)?,
        "3" => rule_3(alloc, m, c, t)?,
        "4" => rule_4(alloc, m, c, t)?,
        "5" => rule_5(alloc, m, c, t)?,
        "6" => rule_6(alloc, m, c, t)?,
        "7" => rule_7(alloc, m, c, t)?,
        "8" => rule_8(alloc, m, c, t)?,
        "9" => rule_9(alloc, m, c, t)?,
        "10" => rule_10(alloc, m, c, t)?,
        "11" => rule_11(alloc, m, c, t)?,
        "12" => rule_12(alloc, m, c, t)?,
        "13" => rule_13(alloc, m, c, t)?,
        "14" => rule_14(alloc, m, c, t)?,
        "15" => rule_15(alloc, m, c, t)?,
        "16" => rule_16(alloc, m, c, t)?,
        "17" => rule_17(alloc, m, c, t)?,
        "18" => rule_18(alloc, m, c, t)?,
        _ => return Err(Fail::new("no such rule")),
    };
    Ok(made)
}

/// Calls a rule, and compares the printed pipeline.
fn expect_rule(
    rt: &impl Abort,
    alloc: Global,
    m: &Model,
    c: &Customs,
    call: &str,
    wanted: &str,
) -> Result<(), Fail>
    requires customs { AreTypedOver m.now c.now }
    requires whole { IsTrue (customs_typed m.now (readings c.now)) }
{
    let Some((number, line)) = call.split_once(' ') else {
        panic!(rt; "no rule: {call}");
    };
    let t = typed(rt, alloc, m, c, line)?;
    let found = match by_rule(alloc, m, c, number, &t)? {
        Some(made) => print(alloc, &made.pipe)?,
        None => String::new(alloc),
    };
    assert_eq!(rt; found.as_str(), wanted, "{call}");
    Ok(())
}

/// What one rewrite after another leads to.
fn rewritten(alloc: Global, m: &Model, c: &Customs, t: Typed) -> Result<Typed, Fail>
    requires set { IsSet m.now t.set }
    requires customs { AreTypedOver m.now c.now }
    requires whole { IsTrue (customs_typed m.now (readings c.now)) }
    requires typing { IsTyping m.now (readings c.now) t }
{
    let mut current = t;
    'rewrites: for _ in 0..MOST {
        match next_rewrite(alloc, m, c, &current)? {
            Some(after) => current = after,
            None => return Ok(current),
        }
    }
    Err(Fail::new("too many rewrites"))
}

/// Compares the plan, and what the rewrites lead to, with the printed pipeline.
fn expect_plan(
    rt: &impl Abort,
    alloc: Global,
    m: &Model,
    c: &Customs,
    line: &str,
    wanted: &str,
) -> Result<(), Fail>
    requires customs { AreTypedOver m.now c.now }
    requires whole { IsTrue (customs_typed m.now (readings c.now)) }
{
    let t = typed(rt, alloc, m, c, line)?;
    let plan = optimise(alloc, m, c, &t)?;
    let found = print(alloc, plan.pipe())?;
    assert_eq!(rt; found.as_str(), wanted, "{line}");
    let last = rewritten(alloc, m, c, t)?;
    let found = print(alloc, &last.pipe)?;
    assert_eq!(rt; found.as_str(), wanted, "{line}, by rewrites");
    Ok(())
}

/// Goes through a table over a model. Its rows are blank, or headings, or have an arrow with what is wanted behind it.
fn expect_table(
    rt: &impl Abort,
    alloc: Global,
    model: &str,
    table: &str,
    has_numbers: bool,
) -> Result<(), Fail> {
    let m = read_model(alloc, model.as_bytes())?;
    let c = typed_customs(alloc, &m)?;
    for row in table.lines() {
        match row.split_once(" =>") {
            Some((call, wanted)) if has_numbers => {
                expect_rule(rt, alloc, &m, &c, call, wanted.trim_start())?
            }
            Some((line, wanted)) => expect_plan(rt, alloc, &m, &c, line, wanted.trim_start())?,
            None => assert!(rt; row.is_empty() || row.starts_with("//"), "no row: {row}"),
        }
    }
    Ok(())
}

#[test]
fn rules_are_applied_at_their_first_places(rt: HostRuntime) -> Result<(), Fail> {
    expect_table(&rt, rt.alloc(), SAMPLE, RULES, true)
}

#[test]
fn rewrites_lead_to_the_plan(rt: HostRuntime) -> Result<(), Fail> {
    expect_table(&rt, rt.alloc(), SAMPLE, SAMPLE_PLANS, false)?;
    expect_table(&rt, rt.alloc(), STOCK, STOCK_PLANS, false)
}
