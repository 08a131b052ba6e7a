//! Requests over the sample that have a typing.

/// Expressions, orders, selections, computed columns and aggregates.
pub(crate) const VALUES: &str = r"
// Comparisons, with null on one or both sides.
Sales?$apply=filter(null eq null) => Sales
Sales?$apply=filter(null ne OrgID or Amount eq null) => Sales
Sales?$apply=filter(null ge null and Amount gt null) => Sales
Sales?$apply=filter(null lt Customer/Since) => Sales
Sales?$apply=filter(true eq false) => Sales
Sales?$apply=filter(null ne true) => Sales
Sales?$apply=filter((ID eq 1) eq (Amount ne 2)) => Sales
// Two numbers of any scales, two values of one kind.
Sales?$apply=filter(Amount eq 1 and ID lt 1.50 and Amount ge 0.123456789) => Sales
Sales?$apply=filter(Customer/Since ge 2020-02-29) => Sales
Sales?$apply=filter('a' lt Customer/Name) => Sales
Customers?$apply=filter(Since eq Since and ID ne Country) => Customers
// Logic.
Sales?$apply=filter(not true and not not false or ID gt 1) => Sales
Sales?$apply=filter(not (ID gt 1)) => Sales
// Functions.
Sales?$apply=filter(startswith(OrgID,'W') and not endswith('a',CustomerID) or contains(Customer/Name,Org/ID)) => Sales
Sales?$apply=filter(length(OrgID) eq 2 and length('x') gt Amount) => Sales
Sales?$apply=filter(year(Customer/Since) eq 2020 and month(Customer/Since) lt day(2020-02-29)) => Sales
// Arithmetic: the greater scale, or the sum of the scales.
Sales?$apply=compute(ID add 1 as A,ID sub Amount as B,Amount mul Amount as C,-Amount as D,-ID as E,- -1 as F) => Sales; A: Int64 risky; B: Decimal(2,18) risky; C: Decimal(4,18) risky; D: Decimal(2,18); E: Int64 risky; F: Int64 risky
Sales?$apply=compute(Amount mul 0.1234567 as A,Amount add 0.123456789 as B,ID mul 0.123456789 as C) => Sales; A: Decimal(9,18) risky; B: Decimal(9,18) risky; C: Decimal(9,18) risky
Sales?$apply=compute(Amount mul Amount mul Amount mul Amount mul 0.5 as A) => Sales; A: Decimal(9,18) risky
Sales?$apply=compute(9223372036854775807 as A,99999999999999999.9 as B,-(ID) as C) => Sales; A: Int64; B: Decimal(1,18); C: Int64 risky
// Literals of each kind.
Sales?$apply=compute(true as A,2020-02-29 as B,'it''s' as C,1.50 as D,7 as E) => Sales; A: Boolean; B: Date; C: String; D: Decimal(2,18); E: Int64
// Paths through navigation properties.
Sales?$apply=filter(Org/Superordinate/Superordinate/ID eq 'Corp') => Sales
Sales?$apply=orderby(Customer/Country,Org/Superordinate/ParentID desc,Amount) => Sales
// Steps that keep the shape.
Sales?$apply=identity => Sales
Sales?$apply=skip(0)/top(9223372036854775807) => Sales
Sales?$apply=orderby(true,Amount gt 1 desc) => Sales
Sales?$apply=topcount(0,true)/bottomcount(3,Customer/Since)/topcount(1,OrgID) => Sales
Sales?$apply=topsum(0,ID)/bottomsum(1.50,Amount)/topsum(9223372036854775807,Amount add 1) => Sales (may be refused)
Sales?$apply=toppercent(0,ID)/bottompercent(100,Amount) => Sales
// New columns.
Sales?$apply=compute(Amount as A,Amount as B)/identity => Sales; A: Decimal(2,18); B: Decimal(2,18)
Sales?$apply=compute(Amount as A)/compute(A as B,A add 1 as C) => Sales; A: Decimal(2,18); B: Decimal(2,18); C: Decimal(2,18) risky
Sales?$apply=compute(1 as Best) => Sales; Best: Int64
Sales?$apply=compute(1 as Sales)/filter(Sales eq 1) => Sales; Sales: Int64
Customers?$apply=compute(ID as Amount,Since as Customer) => Customers; Amount: String; Customer: Date
Sales?$apply=aggregate(ID with max as ID)/compute(ID as Amount) => -; ID: Int64; Amount: Int64
// Aggregates.
Sales?$apply=aggregate($count as N) => -; N: Int64
Sales?$apply=aggregate(ID with sum as ID,Amount with sum as Amount,Amount mul 2 with sum as Twice) => -; ID: Int64 risky; Amount: Decimal(2,18) risky; Twice: Decimal(2,18) risky
Sales?$apply=aggregate(ID with min as A,Amount with max as B,OrgID with min as C,Customer/Since with max as D) => -; A: Int64; B: Decimal(2,18); C: String; D: Date
Sales?$apply=aggregate(true with countdistinct as A,OrgID with countdistinct as B,ID gt 1 with countdistinct as C) => -; A: Int64; B: Int64; C: Int64
Sales?$apply=aggregate(Amount add 1 with min as A,Amount add 1 with countdistinct as B,-ID with max as C,-Amount with max as D) => -; A: Decimal(2,18) risky; B: Int64 risky; C: Int64 risky; D: Decimal(2,18)
Sales?$apply=aggregate(Best) => -; Best: Decimal(2,18) risky
Sales?$apply=aggregate(Best as Amount,$count as Best) => -; Amount: Decimal(2,18) risky; Best: Int64
Sales?$apply=filter(ID gt 1)/compute(1 as X)/aggregate(Best as B) => -; B: Decimal(2,18) risky
";

/// Groups, concatenations, joins and hierarchies.
pub(crate) const TRANSFORMATIONS: &str = r"
// Keys of groups.
Sales?$apply=groupby((OrgID)) => -; OrgID: String declared
Sales?$apply=groupby((Customer/Country,Org/Superordinate/ID,Amount)) => -; Customer/Country: String declared; Org/Superordinate/ID: String declared; Amount: Decimal(2,18) declared
Sales?$apply=compute(Amount add 1 as A)/groupby((A,ID)) => -; A: Decimal(2,18) risky; ID: Int64 declared (may be refused)
Sales?$apply=groupby((OrgID),aggregate(Amount with sum as T)) => -; T: Decimal(2,18) risky; OrgID: String declared
Sales?$apply=groupby((OrgID),aggregate(Best,$count as Amount)) => -; Best: Decimal(2,18) risky; Amount: Int64; OrgID: String declared
Sales?$apply=groupby((Customer/Country),aggregate(Amount with sum as Country)) => -; Country: Decimal(2,18) risky; Customer/Country: String declared
Sales?$apply=groupby((OrgID),identity)/groupby((ID),top(1)) => Sales; OrgID: String declared; ID: Int64 declared
Sales?$apply=groupby((Customer/Country),identity)/compute(1 as Country) => Sales; Customer/Country: String declared; Country: Int64
Sales?$apply=groupby((CustomerID),groupby((OrgID),aggregate($count as N))) => -; N: Int64; OrgID: String declared; CustomerID: String declared
Sales?$apply=groupby((CustomerID),concat(top(1),aggregate($count as N))) => Sales absent; N: Int64 absent; CustomerID: String declared
// Rollups.
Sales?$apply=groupby((rollup(Customer/Country,Customer/Name))) => -; Customer/Country: String declared; Customer/Name: String declared absent
Sales?$apply=groupby((rollup($all,OrgID)),aggregate($count as N)) => -; N: Int64; OrgID: String declared absent
Sales?$apply=groupby((rollup($all,OrgID,ID),CustomerID)) => -; CustomerID: String declared; OrgID: String declared absent; ID: Int64 declared absent
Sales?$apply=groupby((CustomerID,rollup(OrgID,ID,Amount)),top(1)) => Sales; CustomerID: String declared; OrgID: String declared; ID: Int64 declared absent; Amount: Decimal(2,18) declared absent
Sales?$apply=groupby((rollup(Customer/Country,Customer/Name)))/groupby((rollup($all,Customer/Name)))/groupby((Customer/Name)) => -; Customer/Name: String declared
// Recursive rollups.
Sales?$apply=groupby((rolluprecursive($root/Orgs,OrgTree,OrgID))) => -; OrgID: String declared
Sales?$apply=groupby((rolluprecursive($root/Orgs,OrgTree,Org/ParentID,filter(ID eq 'US'))),aggregate(Amount with sum as T)) => -; T: Decimal(2,18) risky; Org/ParentID: String declared
Sales?$apply=groupby((CustomerID,rolluprecursive($root/Orgs,OrgTree,OrgID,orderby(ID)/compute(1 as X))),groupby((ID))) => -; ID: Int64 declared; CustomerID: String declared; OrgID: String declared
Orgs?$apply=groupby((rolluprecursive($root/Orgs,OrgTree,ID,groupby((ParentID),identity)))) => -; ID: String declared
Sales?$apply=groupby((rolluprecursive($root/Orgs,OrgTree,OrgID,concat(identity,top(1)))),aggregate(Best)) => -; Best: Decimal(2,18) risky; OrgID: String declared
Sales?$apply=groupby((rolluprecursive($root/Orgs,OrgTree,CustomerID))) => -; CustomerID: String declared
Sales?$apply=aggregate(OrgID with max as O)/groupby((rolluprecursive($root/Orgs,OrgTree,O))) => -; O: String
// Concatenations.
Sales?$apply=concat(identity,identity) => Sales
Sales?$apply=concat(identity,aggregate($count as N))/filter(N eq 6) => Sales absent; N: Int64 absent
Sales?$apply=concat(identity,aggregate(Amount with sum as Amount)) => Sales absent; Amount: Decimal(2,18) absent risky
Sales?$apply=concat(aggregate(Amount with sum as Amount),identity,aggregate(Amount add 1 with max as Amount,ID with max as ID)) => Sales absent; Amount: Decimal(2,18) absent risky; ID: Int64 absent
Sales?$apply=concat(groupby((OrgID)),groupby((OrgID),aggregate($count as N)),aggregate(OrgID with max as OrgID)) => -; OrgID: String; N: Int64 absent
Sales?$apply=concat(groupby((Customer/Country)),identity) => Sales absent; Customer/Country: String declared absent
Sales?$apply=concat(aggregate($count as Customer),groupby((Customer/Country))) => -; Customer: Int64 absent; Customer/Country: String declared absent
Sales?$apply=concat(aggregate($count as Customer),groupby((Customer/Country)))/groupby((Customer,Customer/Country)) => -; Customer: Int64; Customer/Country: String declared
Sales?$apply=concat(groupby((rollup(OrgID,ID))),groupby((ID))) => -; OrgID: String declared absent; ID: Int64 declared absent
Customers?$apply=concat(join(Sales as S),outerjoin(Sales as S)) => Customers; S: Sales absent
Customers?$apply=concat(join(Sales as S),outerjoin(Sales as S,groupby((OrgID)))) => Customers; S: Sales absent; S/OrgID: String declared absent
Customers?$apply=concat(join(Sales as S),identity)/filter(S/Amount eq null) => Customers; S: Sales absent
Customers?$apply=concat(join(Sales as S),aggregate($count as S)) => Customers absent; S: Sales absent; S: Int64 absent
Customers?$apply=concat(join(Sales as S),join(Sales as S,compute(1 as N)))/groupby((S/N),aggregate(S/ID with max as M)) => -; M: Int64; S/N: Int64
// Joins.
Customers?$apply=join(Sales as S) => Customers; S: Sales
Customers?$apply=outerjoin(Sales as S) => Customers; S: Sales absent
Customers?$apply=outerjoin(Sales as S,groupby((OrgID))) => Customers; S/OrgID: String declared absent
Customers?$apply=join(Sales as S,compute(Amount add 1 as X)/groupby((Org/ParentID,X))) => Customers; S/Org/ParentID: String declared; S/X: Decimal(2,18) risky (may be refused)
Customers?$apply=join(Sales as S,filter(Amount gt 5))/join(Sales as T,top(1))/filter(S/Customer/ID eq T/CustomerID) => Customers; S: Sales; T: Sales
Customers?$apply=outerjoin(Sales as S,aggregate(Amount with sum as T))/aggregate(S/T with sum as T,S/T with countdistinct as S) => -; T: Decimal(2,18) risky; S: Int64 risky
Customers?$apply=join(Sales as S)/compute(S/Amount as T)/groupby((S/OrgID,Country),aggregate(T with sum as T)) => -; T: Decimal(2,18) risky; S/OrgID: String declared; Country: String declared
Customers?$apply=join(Sales as Best,aggregate(Best)) => Customers; Best/Best: Decimal(2,18) risky
Customers?$apply=join(Sales as S,concat(identity,aggregate($count as N)))/compute(S/N as N,S/ID as M) => Customers; S: Sales absent; S/N: Int64 absent; N: Int64; M: Int64
Customers?$apply=groupby((Country),identity)/join(Sales as S) => Customers; S: Sales; Country: String declared
Customers?$apply=join(Sales as S)/groupby((Country),groupby((S/OrgID))) => -; S/OrgID: String declared; Country: String declared
// Ancestors and descendants.
Sales?$apply=ancestors($root/Orgs,OrgTree,OrgID,filter(ID eq 1)) => Sales
Sales?$apply=descendants($root/Orgs,OrgTree,Org/Superordinate/ID,identity,1,keep start) => Sales
Sales?$apply=ancestors($root/Orgs,OrgTree,OrgID,groupby((OrgID)),9223372036854775807) => Sales
Sales?$apply=descendants($root/Orgs,OrgTree,OrgID,aggregate(CustomerID with max as OrgID),keep start) => Sales
Sales?$apply=groupby((OrgID))/descendants($root/Orgs,OrgTree,OrgID,top(1)) => -; OrgID: String declared
// Traversals.
Orgs?$apply=traverse($root/Orgs,OrgTree,ID,preorder) => Orgs
Sales?$apply=traverse($root/Orgs,OrgTree,OrgID,postorder,ParentID desc,length(ID) add 1) => Sales (may be refused)
Sales?$apply=compute(OrgID as O)/traverse($root/Orgs,OrgTree,O,preorder,Superordinate/Superordinate/ID) => Sales; O: String
";

/// Pipelines that may be refused, and columns that some instances lack.
pub(crate) const RISKS: &str = r"
// Pipelines that may be refused: a sum, arithmetic or minus in a filter, an order, a key, a selection or a node's path.
Sales?$apply=aggregate(Amount with sum as T)/filter(T gt 1) => -; T: Decimal(2,18) risky (may be refused)
Sales?$apply=groupby((OrgID),aggregate(Amount with sum as T))/orderby(T desc) => -; T: Decimal(2,18) risky; OrgID: String declared (may be refused)
Sales?$apply=groupby((OrgID),aggregate(Best))/topcount(1,Best) => -; Best: Decimal(2,18) risky; OrgID: String declared (may be refused)
Sales?$apply=compute(ID add 1 as A)/groupby((rollup($all,OrgID,A))) => -; OrgID: String declared absent; A: Int64 absent risky (may be refused)
Sales?$apply=filter(ID add 1 gt 1) => Sales (may be refused)
Sales?$apply=filter(-ID lt 1) => Sales (may be refused)
Sales?$apply=orderby(OrgID,-(-1) desc) => Sales (may be refused)
Sales?$apply=groupby((OrgID),filter(Amount mul 2 gt 1)) => Sales; OrgID: String declared (may be refused)
Sales?$apply=groupby((OrgID),aggregate(Amount with sum as T))/concat(identity,filter(T gt 1)) => -; T: Decimal(2,18) risky; OrgID: String declared (may be refused)
Customers?$apply=join(Sales as S,orderby(ID mul 2)) => Customers; S: Sales (may be refused)
Customers?$apply=join(Sales as S,aggregate(Amount with sum as T))/filter(S/T gt 1) => Customers; S/T: Decimal(2,18) risky (may be refused)
Sales?$apply=ancestors($root/Orgs,OrgTree,OrgID,filter(ID mul 2 eq 2)) => Sales (may be refused)
Sales?$apply=groupby((rolluprecursive($root/Orgs,OrgTree,OrgID,topcount(1,length(ID) add 1)))) => -; OrgID: String declared (may be refused)
Sales?$apply=concat(compute(Amount add 1 as X),compute(Amount as X))/filter(X gt 1) => Sales; X: Decimal(2,18) risky (may be refused)
// Pipelines that are never refused, though numbers may pass their range.
Sales?$apply=compute(ID add 1 as A)/aggregate(A with max as B) => -; B: Int64 risky
Sales?$apply=aggregate(Amount with sum as T)/compute(T add 1 as U)/skip(1) => -; T: Decimal(2,18) risky; U: Decimal(2,18) risky
Sales?$apply=filter(-1 lt ID and -Amount lt -2.50)/topcount(1,-Amount) => Sales
Customers?$apply=join(Sales as S,compute(ID add 1 as X))/filter(S/ID gt 1) => Customers; S: Sales; S/X: Int64 risky
Sales?$apply=compute(ID add 1 as A)/groupby((OrgID,rollup(CustomerID,ID)),aggregate(A with sum as T)) => -; T: Int64 risky; OrgID: String declared; CustomerID: String declared; ID: Int64 declared absent
Sales?$apply=groupby((rolluprecursive($root/Orgs,OrgTree,OrgID,compute(length(ID) add 1 as X))),aggregate(Amount add 1 with sum as T)) => -; T: Decimal(2,18) risky; OrgID: String declared
// Columns that some instances lack.
Customers?$apply=outerjoin(Sales as S,compute(Amount add 1 as More)) => Customers; S: Sales absent; S/More: Decimal(2,18) absent risky
Sales?$apply=groupby((rollup($all,Customer/Country,CustomerID)),aggregate(Amount with sum as T)) => -; T: Decimal(2,18) risky; Customer/Country: String declared absent; CustomerID: String declared absent
Sales?$apply=concat(compute(1 as One),groupby((ID))) => Sales absent; One: Int64 absent; ID: Int64 declared absent
";
